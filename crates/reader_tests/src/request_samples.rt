// Streams of requests as clients send them, and what they answer.

const CURL: &str = "GET /solr/src/stream?expr=search(src) HTTP/1.1\r\n\
    Host: localhost:8983\r\n\
    User-Agent: curl/8.5.0\r\n\
    Accept: */*\r\n\
    \r\n";

const CURL_POST: &str = "POST /solr/src/stream?a=1 HTTP/1.1\r\n\
    Host: localhost:8983\r\n\
    User-Agent: curl/8.5.0\r\n\
    Accept: */*\r\n\
    Content-Length: 16\r\n\
    Content-Type: application/x-www-form-urlencoded\r\n\
    \r\n\
    expr=a%28b+c%29&";

const BROWSER: &str = "GET /solr/dest/stream?action=list HTTP/1.1\r\n\
    Host: localhost:8983\r\n\
    Connection: keep-alive\r\n\
    sec-ch-ua: \"Chromium\";v=\"128\"\r\n\
    Upgrade-Insecure-Requests: 1\r\n\
    User-Agent: Mozilla/5.0 (X11; Linux x86_64)\r\n\
    Accept: text/html,application/xhtml+xml\r\n\
    Accept-Encoding: gzip, deflate, br\r\n\
    Accept-Language: en\r\n\
    \r\n";

const SOLRJ: &str = "POST /solr/dest/update?commit=true&wt=json HTTP/1.1\r\n\
    Content-Type: application/json\r\n\
    User-Agent: Solr[org.apache.solr.client.solrj.impl.HttpSolrClient] 1.0\r\n\
    Transfer-Encoded: no\r\n\
    Content-Length: 2\r\n\
    Host: localhost:8983\r\n\
    Connection: Keep-Alive\r\n\
    \r\n\
    []";

// Streams, and what they answer.
pub const READ: [(&str, &str); 17] = [
    (CURL, "stream src expr=search(src) [0];0"),
    (CURL_POST, "stream src a=1 expr=a(b c) [16];0"),
    (BROWSER, "stream dest action=list [0];0"),
    (SOLRJ, "update dest commit=true wt=json [2];0"),
    ("GET /solr/src/stream HTTP/1.1\n\n", "stream src [0];0"),
    (
        "\r\n\n\r\nGET /solr/src/stream HTTP/1.1\r\n\r\n",
        "stream src [0];0",
    ),
    (
        "GET /solr/src/stream HTTP/1.0\r\n\r\n",
        "stream src [0] close whole;0",
    ),
    (
        "GET /solr/src/stream HTTP/1.1\r\nConnection: keep-alive, CLOSE \r\n\r\nx",
        "stream src [0] close;0",
    ),
    (
        "GET /solr/src/stream HTTP/1.1\r\nConnection: closed\r\n\r\n",
        "stream src [0];0",
    ),
    (
        "POST /solr/src/update/json HTTP/1.1\r\n\
         expect: 100-Continue\r\ncontent-length:\t03 \r\n\r\n[1]",
        "100;update src [3];0",
    ),
    (
        "POST /solr/src/update/json/docs?a=b HTTP/1.0\r\n\
         Expect: 100-continue\r\nContent-Length: 3\r\n\r\na=c",
        "update src a=b [3] close whole;0",
    ),
    (
        "GET /solr/src/stream HTTP/1.1\r\nExpect: 100-continue\r\nContent-Length: 0\r\n\r\n",
        "stream src [0];0",
    ),
    (
        "GET /solr/src/stream HTTP/1.1\r\nExpect: 100-continue\r\nContent-Length: 1\r\n\r\n",
        "100;74",
    ),
    (
        "GET /solr/src/stream?a&=b&&c=%zz%41%FF+d HTTP/1.1\r\n\r\n",
        "stream src a= =b c=%zzA\u{fffd} d [0];0",
    ),
    ("\r\nGET /solr", "9"),
    ("\r\n\r", "1"),
    ("", "0"),
];

// Requests, whether the connection ends with each, and whether its reply may go in chunks.
pub const CHUNKS: [(&str, bool, bool); 3] = [
    ("GET /solr/src/stream HTTP/1.1\r\n\r\n", false, true),
    ("GET /solr/src/stream HTTP/1.0\r\n\r\n", true, false),
    (
        "GET /solr/src/stream HTTP/1.1\r\nConnection: close\r\n\r\n",
        true,
        true,
    ),
];

// Streams with a message that is refused, and the refusal.
pub const REFUSED: [(&str, &str); 24] = [
    ("GET  /solr/src/stream HTTP/1.1\r\n\r\n", "400;0"),
    ("GET /solr/src/stream HTTP/1.2\r\n\r\n", "400;0"),
    (
        "GET /solr/src/stream HTTP/1.1\r\nA: b\r\n c\r\n\r\n",
        "400;0",
    ),
    ("GET /solr/src/stream HTTP/1.1\r\nA : b\r\n\r\n", "400;0"),
    ("nonsense\r\n\r\n", "400;0"),
    (
        "POST /solr/no/stream HTTP/1.1\r\nTransfer-Encoding: chunked\r\nContent-Length: x\r\n\r\n",
        "501;0",
    ),
    (
        "POST /solr/no/stream HTTP/1.1\r\nContent-Length: x\r\n\r\n",
        "400;0",
    ),
    (
        "GET /solr/src/stream HTTP/1.1\r\nContent-Length:\r\n\r\n",
        "400;0",
    ),
    (
        "GET /solr/src/stream HTTP/1.1\r\nContent-Length: 5, 5\r\n\r\n",
        "400;0",
    ),
    (
        "GET /solr/src/stream HTTP/1.1\r\nContent-Length: +5\r\n\r\n",
        "400;0",
    ),
    (
        "GET /solr/src/stream HTTP/1.1\r\nContent-Length: 0\r\nContent-Length: 1\r\n\r\n",
        "400;0",
    ),
    (
        "GET /solr/src/stream HTTP/1.1\r\nContent-Length: 0\r\nContent-Length: 000\r\n\r\n",
        "stream src [0];0",
    ),
    (
        "GET /solr/src/stream HTTP/1.1\r\nContent-Length: 0000000000000000000\r\n\r\n",
        "stream src [0];0",
    ),
    (
        "GET /solr/src/stream HTTP/1.1\r\nContent-Length: 00000000000000000000\r\n\r\n",
        "400;0",
    ),
    (
        "GET /solr/src/stream HTTP/1.1\r\nContent-Length: 8388608\r\n\r\n",
        "58",
    ),
    (
        "PUT /solr/no/stream HTTP/1.1\r\nContent-Length: 8388609\r\n\r\n",
        "413;0",
    ),
    ("PUT /solr/no/stream HTTP/1.1\r\n\r\n", "404;0"),
    ("GET /solr/src/stream/ HTTP/1.1\r\n\r\n", "404;0"),
    ("GET /solr/src/str%65am HTTP/1.1\r\n\r\n", "404;0"),
    ("GET http://h/solr/src/stream HTTP/1.1\r\n\r\n", "404;0"),
    ("GET /solr/src/update/json/doc HTTP/1.1\r\n\r\n", "404;0"),
    ("PUT /solr/src/stream HTTP/1.1\r\n\r\n", "405;0"),
    (
        "post /solr/src/stream HTTP/1.1\r\nContent-Length: 0\r\n\r\n",
        "405;0",
    ),
    ("POST /solr/src/stream HTTP/1.1\r\n\r\n", "411;0"),
];

pub const PIPELINED: [&str; 7] = [
    CURL_POST,
    "\r\n\n",
    CURL,
    SOLRJ,
    BROWSER,
    "GET /solr/dest/update HTTP/1.1\nExpect: 100-continue\nContent-Length: 3\n\nabc",
    "PUT / HTTP/1.1\r\n\r\nx",
];

pub const PIPELINED_ANSWERS: &str = "stream src a=1 expr=a(b c) [16];\
    stream src expr=search(src) [0];update dest commit=true wt=json [2];\
    stream dest action=list [0];100;update dest [3];404;0";
