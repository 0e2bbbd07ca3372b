// What holds of what the workers of a server did.
ghost use Rattle.site_server.specs.Standing.{ServedAreFound};

use server_edge::Clock;

/// What a server's workers did is found in the histories with which its site was closed. Where a
/// door tells its connections, and no more had come back to it than it had given, the exchanges of
/// those that its worker served are sound over these histories, one after another; and the entries
/// with the worker's number are just the own steps that came back, in their order.
pub fn served_connections_are_found<D, I, O, C: Clock>()
    ensures { (clock : C) → ServedAreFound D I O (C.tells clock) }
{}
