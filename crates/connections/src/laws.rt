//! Laws on runs of many connections.
ghost use Rattle.connections.specs.Clients.{RepliesAreSent, RequestsAreHeard};
ghost use Rattle.connections.specs.Runs.{ConnectionsAreServed};
ghost use Rattle.connections.specs.Isolation.{ClientsAreIsolated};
ghost use Rattle.connections.specs.Lines.{TurnsAreShared, RoundsAreFew};

/// Whatever clients come, say, take and leave, in any order: each is answered as `serve` answers what it said itself, in
/// the order in which the requests became whole, and is sent that reply from its begin on and nothing else. So it is at each
/// moment of the run, by one list of what was served: also of those that have gone since.
pub fn connections_are_served()
    ensures { ConnectionsAreServed }
{}

/// Whatever clients come, say, take and leave, in any order, from a new edge on: a client's reply is that to what it said
/// itself, and depends on nothing else but the requests to its channel that became whole before it. What was answered 503
/// counts for nothing. One list of what was asked and answered is for each moment of the run: who was sent a reply and has
/// gone since is in it.
pub fn clients_are_isolated()
    ensures { ClientsAreIsolated }
{}

/// Whatever others do meanwhile, a turn in which a client that is answered goes on (`Turn::Goes`) leaves at least 4 bytes
/// fewer of its reply: so after a fourth as many turns as the reply has bytes none of them goes on. The client then has its
/// reply, waits for its own socket, or is gone.
pub fn replies_are_sent()
    ensures { RepliesAreSent }
{}

/// Whatever others do meanwhile, a turn that leaves a client asking (`Turn::Goes`) leaves at least 4 bytes more of its request
/// in the table: so a client whose request has so many bytes has it whole after at most a fourth as many turns, unless it has to
/// be waited for, has no room or is gone.
pub fn requests_are_heard()
    ensures { RequestsAreHeard }
{}

/// While a request stands in line, its channel has no more turns than there were requests on it before, and each other channel at
/// most one more. So the first request on a channel waits for at most one of each other channel, however many stand in line, and none
/// is passed over by one on its channel that came later.
pub fn turns_are_shared()
    ensures { TurnsAreShared }
{}

/// If in each round one of those is called that stand in line, the first request on a channel is called after at most 64 rounds, and
/// each later one after at most 65 more.
pub fn rounds_are_few()
    ensures { RoundsAreFew }
{}
