// Requests and the responses to them, worked out by hand.

/// An update of one document, which is committed.
pub const UPDATE: &str = "POST /solr/c/update?commit=true HTTP/1.1\r\nContent-Length: 20\r\n\r\n\
     [{\"id\":\"1\",\"n_i\":5}]";

/// A search of the ids, behind which the connection closes.
pub const SEARCH: &str = "GET /solr/c/stream?expr=search(c,q%3D%22*:*%22,fl%3D%22id%22,\
     sort%3D%22id+asc%22) HTTP/1.0\r\n\r\n";

/// The response to an update.
pub const UPDATED: &str = "HTTP/1.1 200 OK\r\nContent-Type: application/json\r\n\
     Content-Length: 41\r\n\r\n{\"responseHeader\":{\"status\":0,\"QTime\":0}}";

/// The reply to the search, behind the update.
pub const FOUND: &str = "HTTP/1.1 200 OK\r\nContent-Type: application/json\r\n\
     Content-Length: 67\r\nConnection: close\r\n\r\n\
     {\"result-set\":{\"docs\":[{\"id\":\"1\"},{\"EOF\":true,\"RESPONSE_TIME\":0}]}}";

/// What a result set begins with.
pub const OPENING: &str = "{\"result-set\":{\"docs\":[";

/// The end tuple of a result set, and what closes it.
pub const END: &str = "{\"EOF\":true,\"RESPONSE_TIME\":0}]}}";
