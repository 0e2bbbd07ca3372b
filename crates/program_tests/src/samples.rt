// Requests of scripts and the responses to them, worked out by hand.

pub(crate) const ONE: &str =
    "HTTP/1.1 200 OK\r\nContent-Type: application/json\r\nTransfer-Encoding: chunked\r\n\r\n\
     4b\r\n{\"result-set\":{\"docs\":[{\"id\":\"1\",\"n_i\":5},{\"EOF\":true,\"RESPONSE_TIME\":0}]}}\r\n0\r\n\r\n";

pub(crate) const NONE: &str =
    "HTTP/1.1 200 OK\r\nContent-Type: application/json\r\nTransfer-Encoding: chunked\r\n\r\n\
     38\r\n{\"result-set\":{\"docs\":[{\"EOF\":true,\"RESPONSE_TIME\":0}]}}\r\n0\r\n\r\n";

pub(crate) const BOTH: &str =
    "HTTP/1.1 200 OK\r\nContent-Type: application/json\r\nTransfer-Encoding: chunked\r\n\r\n\
     5e\r\n{\"result-set\":{\"docs\":[{\"id\":\"2\",\"n_i\":5},{\"id\":\"3\",\"n_i\":5},{\"EOF\":true,\"RESPONSE_TIME\":0}]}}\r\n0\r\n\r\n";

pub(crate) const NOT_IN_FL: &str =
    "HTTP/1.1 200 OK\r\nContent-Type: application/json\r\nTransfer-Encoding: chunked\r\n\r\n\
     5b\r\n{\"result-set\":{\"docs\":[{\"EOF\":true,\"EXCEPTION\":\"SortFieldNotInFl n_i\",\"RESPONSE_TIME\":0}]}}\r\n0\r\n\r\n";

pub(crate) const NO_ID: &str =
    "HTTP/1.1 400 Bad Request\r\nContent-Type: application/json\r\nContent-Length: 79\r\n\r\n\
     {\"responseHeader\":{\"status\":400,\"QTime\":0},\"error\":{\"msg\":\"NoId 0\",\"code\":400}}";

pub(crate) const NOT_WHOLE: &str =
    "HTTP/1.1 400 Bad Request\r\nContent-Type: application/json\r\nContent-Length: 87\r\n\r\n\
     {\"responseHeader\":{\"status\":400,\"QTime\":0},\"error\":{\"msg\":\"NotWhole 0 n_i\",\"code\":400}}";

pub(crate) const NO_DOCUMENT: &str =
    "HTTP/1.1 400 Bad Request\r\nContent-Type: application/json\r\nContent-Length: 87\r\n\r\n\
     {\"responseHeader\":{\"status\":400,\"QTime\":0},\"error\":{\"msg\":\"NotADocument 0\",\"code\":400}}";

pub(crate) const NO_JSON: &str =
    "HTTP/1.1 400 Bad Request\r\nContent-Type: application/json\r\nContent-Length: 80\r\n\r\n\
     {\"responseHeader\":{\"status\":400,\"QTime\":0},\"error\":{\"msg\":\"NotJson\",\"code\":400}}";

pub(crate) const TOO_LARGE: &str =
    "HTTP/1.1 413 Payload Too Large\r\nContent-Type: application/json\r\nContent-Length: 85\r\nConnection: close\r\n\r\n\
     {\"responseHeader\":{\"status\":413,\"QTime\":0},\"error\":{\"msg\":\"BodyTooLarge\",\"code\":413}}";

pub(crate) const NO_METHOD: &str =
    "HTTP/1.1 405 Method Not Allowed\r\nContent-Type: application/json\r\nContent-Length: 82\r\nConnection: close\r\n\r\n\
     {\"responseHeader\":{\"status\":405,\"QTime\":0},\"error\":{\"msg\":\"BadMethod\",\"code\":405}}";

pub(crate) const NO_PATH: &str =
    "HTTP/1.1 404 Not Found\r\nContent-Type: application/json\r\nContent-Length: 83\r\nConnection: close\r\n\r\n\
     {\"responseHeader\":{\"status\":404,\"QTime\":0},\"error\":{\"msg\":\"NoSuchPath\",\"code\":404}}";

pub(crate) const LAST: &str =
    "HTTP/1.1 200 OK\r\nContent-Type: application/json\r\nContent-Length: 56\r\nConnection: close\r\n\r\n\
     {\"result-set\":{\"docs\":[{\"EOF\":true,\"RESPONSE_TIME\":0}]}}";

pub(crate) const PUT: &str = "POST /solr/c/update HTTP/1.1\r\nHost: h\r\nContent-Length: 22\r\n\r\n\
     [{\"id\":\"1\",\"n_i\":\"5\"}]";

pub(crate) const PUT_AND_COMMIT: &str =
    "POST /solr/c/update?commit=true HTTP/1.1\r\nHost: h\r\nContent-Length: 22\r\n\r\n\
     [{\"id\":\"1\",\"n_i\":\"5\"}]";

pub(crate) const COMMIT: &str = "GET /solr/c/update?commit=true HTTP/1.1\r\n\r\n";

pub(crate) const SEARCH: &str =
    "GET /solr/c/stream?expr=search(c,q%3D%22*:*%22,fl%3D%22id,n_i%22,sort%3D%22id+asc%22) HTTP/1.1\r\nHost: h\r\n\r\n\
     ";

pub(crate) const PUT_TWO: &str =
    "POST /solr/c/update?commit=true HTTP/1.1\r\nHost: h\r\nContent-Length: 39\r\n\r\n\
     [{\"id\":\"3\",\"n_i\":5},{\"id\":\"2\",\"n_i\":5}]";

pub(crate) const SEARCH_ID: &str =
    "GET /solr/c/stream?expr=search(c,q%3D%22n_i:5%22,fl%3D%22id%22,sort%3D%22n_i+asc%22) HTTP/1.1\r\n\r\n\
     ";

pub(crate) const SEARCH_BOTH: &str =
    "GET /solr/c/stream?expr=search(c,q%3D%22n_i:5%22,fl%3D%22id,n_i%22,sort%3D%22n_i+asc%22) HTTP/1.1\r\n\r\n\
     ";

pub(crate) const BAD_ID: &str =
    "POST /solr/c/update HTTP/1.1\r\nHost: h\r\nContent-Length: 11\r\n\r\n\
     [{\"n_i\":1}]";

pub(crate) const BAD_NUMBER: &str =
    "POST /solr/c/update HTTP/1.1\r\nHost: h\r\nContent-Length: 22\r\n\r\n\
     [{\"id\":\"1\",\"n_i\":1.5}]";

pub(crate) const BAD_DOCUMENT: &str =
    "POST /solr/c/update HTTP/1.1\r\nHost: h\r\nContent-Length: 3\r\n\r\n[1]";

pub(crate) const BAD_JSON: &str =
    "POST /solr/c/update HTTP/1.1\r\nHost: h\r\nContent-Length: 1\r\n\r\n[";

pub(crate) const ASKING: &str = "POST /solr/c/update HTTP/1.1\r\nExpect: 100-continue\r\n\
     Content-Length: 2\r\n\r\n[]";

pub(crate) const CONTINUE: &str = "HTTP/1.1 100 Continue\r\n\r\n";

pub(crate) const CLOSING_SEARCH: &str =
    "GET /solr/c/stream?expr=search(c,q%3D%22*:*%22,fl%3D%22id,n_i%22,\
     sort%3D%22id+asc%22) HTTP/1.0\r\n\r\n";

pub(crate) const PUT_THREE: &str =
    "POST /solr/c/update?commit=true HTTP/1.1\r\nHost: h\r\nContent-Length: 88\r\n\r\n\
     [{\"g_s\":\"a\",\"id\":\"1\",\"n_i\":1},{\"g_s\":\"b\",\"id\":\"2\",\"n_i\":2},{\"g_s\":\"a\",\"id\":\"3\",\"n_i\":3}]";

pub(crate) const ONE_WORKER: &str =
    "GET /solr/c/stream?expr=parallel(c,rollup(search(c,q%3D%22*:*%22,fl%3D%22g_s,n_i%22,sort%3D%22g_s+asc%22,partitionKeys%3D%22g_s%22),\
     over%3D%22g_s%22,sum(n_i),count(*)),workers%3D1,sort%3D%22g_s+asc%22) HTTP/1.1\r\n\r\n";

pub(crate) const TWO_WORKERS: &str =
    "GET /solr/c/stream?expr=parallel(c,rollup(search(c,q%3D%22*:*%22,fl%3D%22g_s,n_i%22,sort%3D%22g_s+asc%22,partitionKeys%3D%22g_s%22),\
     over%3D%22g_s%22,sum(n_i),count(*)),workers%3D2,sort%3D%22g_s+asc%22) HTTP/1.1\r\n\r\n";

pub(crate) const THREE_WORKERS: &str =
    "GET /solr/c/stream?expr=parallel(c,rollup(search(c,q%3D%22*:*%22,fl%3D%22g_s,n_i%22,sort%3D%22g_s+asc%22,partitionKeys%3D%22g_s%22),\
     over%3D%22g_s%22,sum(n_i),count(*)),workers%3D3,sort%3D%22g_s+asc%22) HTTP/1.1\r\n\r\n";

pub(crate) const MANY_WORKERS: &str =
    "GET /solr/c/stream?expr=parallel(c,rollup(search(c,q%3D%22*:*%22,fl%3D%22g_s,n_i%22,sort%3D%22g_s+asc%22,partitionKeys%3D%22g_s%22),\
     over%3D%22g_s%22,sum(n_i),count(*)),workers%3D16,sort%3D%22g_s+asc%22) HTTP/1.1\r\n\r\n";

pub(crate) const GROUPS: &str =
    "HTTP/1.1 200 OK\r\nContent-Type: application/json\r\nTransfer-Encoding: chunked\r\n\r\n\
     84\r\n{\"result-set\":{\"docs\":[{\"count(*)\":2,\"g_s\":\"a\",\"sum(n_i)\":4},{\"count(*)\":1,\"g_s\":\"b\",\"sum(n_i)\":2},{\"EOF\":true,\"RESPONSE_TIME\":0}]}}\r\n0\r\n\r\n";

// Requests, what they are answered, and the line at status 5.
pub(crate) const STOPPED: [(&str, &str, &str); 4] = [
    (
        "POST /solr/c/update HTTP/1.1\r\nContent-Length: 8388609\r\n\r\n",
        TOO_LARGE,
        "refused 413\n",
    ),
    (
        "PUT /solr/c/update HTTP/1.1\r\n\r\n",
        NO_METHOD,
        "refused 405\n",
    ),
    (
        "GET /solr/zz/stream HTTP/1.1\r\n\r\n",
        NO_PATH,
        "refused 404\n",
    ),
    (
        "POST /solr/c/update HTTP/1.1\r\nContent-Length: 9\r\n\r\n[{",
        "",
        "input cut\n",
    ),
];
