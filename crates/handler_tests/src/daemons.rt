// Requests on daemons and the replies to them, worked out by hand.

/// A request that puts the daemon `d1` on the board.
pub const START: &str =
    "POST /solr/src/stream HTTP/1.1\r\nContent-Type: application/x-www-form-urlencoded\r\n\
     Content-Length: 202\r\n\r\n\
     expr=daemon(id%3D%22d1%22,runInterval%3D%221000%22,terminate%3D%22false%22,update(dest,batchSize\
     %3D100,topic(ck,src,id%3D%22t%22,q%3D%22n_i:%5B100+TO+299%5D%22,fl%3D%22id,n_i%22,initialCheckpo\
     int%3D0)))";

/// The reply where `d1` was started, also again.
pub const STARTED: &str =
    "HTTP/1.1 200 OK\r\nContent-Type: application/json\r\nTransfer-Encoding: chunked\r\n\r\n52\r\n{\"result-set\":{\"docs\":[{\"DaemonOp\":\"started d1\"},{\"EOF\":true,\"RESPONSE_TIME\":0}]}}\r\n0\r\n\r\n";

/// A request for a list of the daemons.
pub const LIST: &str = "GET /solr/src/stream?action=list HTTP/1.1\r\n\r\n";

/// A request that stops `d1`.
pub const STOP: &str = "GET /solr/src/stream?action=stop&id=d1 HTTP/1.1\r\n\r\n";

/// The reply where `d1` was stopped.
pub const STOPPED: &str =
    "HTTP/1.1 200 OK\r\nContent-Type: application/json\r\nTransfer-Encoding: chunked\r\n\r\n52\r\n{\"result-set\":{\"docs\":[{\"DaemonOp\":\"stopped d1\"},{\"EOF\":true,\"RESPONSE_TIME\":0}]}}\r\n0\r\n\r\n";

/// A request that starts `d1` again.
pub const RESUME: &str = "GET /solr/src/stream?action=start&id=d1 HTTP/1.1\r\n\r\n";

/// A request that kills `d9`, which is not there.
pub const KILL: &str = "GET /solr/src/stream?action=kill&id=d9 HTTP/1.1\r\n\r\n";

/// The reply where `d9` is not there.
pub const UNKNOWN: &str =
    "HTTP/1.1 200 OK\r\nContent-Type: application/json\r\nTransfer-Encoding: chunked\r\n\r\n57\r\n{\"result-set\":{\"docs\":[{\"EOF\":true,\"EXCEPTION\":\"UnknownDaemon d9\",\"RESPONSE_TIME\":0}]}}\r\n0\r\n\r\n";
