ghost use Rattle.std.specs.Prelude.{◌≡◌, ℕ, ◌+◌, List, ◌++◌, length, map};
ghost use Rattle.http_messages.specs.declared.messages.Message.{Message};
ghost use Rattle.http_messages.specs.declared.framings.Framing.{Framing};
ghost use Rattle.http_model.specs.Hopeless.{RuleAgrees};
ghost use Rattle.http_model.specs.Bodies.{BodyKind, IsBodyKind};
ghost use Rattle.http_model.specs.Requests.{ReadsMessage, AreRequests};
ghost use Rattle.http_model.specs.Rests.{HeadKind, IsHeadKind, RestKind, IsRest};
ghost use Rattle.http_model.specs.Exchanges.{Plans, Exchange, Runs, AreAllAnswered};
ghost use Rattle.http_model.specs.Laws.{HeadsDecided, ReadStays, NoMessageBegins};
ghost use Rattle.http_model.specs.SessionLaws.{WholeAreRequests, ServedAreRequests, FailedAreRequests, ServedIsOne, EntriesAreTasks, MemoryRunsOut};

// ---- what stands in some bytes is one thing

/// What begins a message is one of a whole head, one with too many fields, an open part of one, too large
/// a part, and hopeless bytes; and of a whole head one reading.
pub fn heads_are_one()
    ensures { (rest : List ℕ) (one other : HeadKind) → IsHeadKind rest one → IsHeadKind rest other → one ≡ other }
{}

/// What begins a body is one of a whole body, one refused piece and its place, too much data, and a part
/// of a body.
pub fn bodies_are_one()
    ensures { (framing : Framing) (bytes : List ℕ) (one other : BodyKind) → IsBodyKind framing bytes one → IsBodyKind framing bytes other → one ≡ other }
{}

/// A message at the front of some bytes is one, and so is what stands behind it.
pub fn messages_are_one()
    ensures { (bytes : List ℕ) (m n : Message) (r q : List ℕ) → ReadsMessage bytes m r → ReadsMessage bytes n q → (m ≡ n) × (r ≡ q) }
{
    requests_are_one();
}

/// A stream has one list of messages, and one rest.
pub fn requests_are_one()
    ensures { (i : ℕ) (bytes : List ℕ) (ms ns : List Message) (r q : List ℕ)
        → AreRequests i bytes ms r → AreRequests i bytes ns q → (ms ≡ ns) × (r ≡ q) }
{}

/// A rest is one of: between messages, a part of a message, refused for one reason, begun by a message. Its
/// interim text, and whether its head is one of a HEAD request, are one too.
pub fn rests_are_one()
    ensures { (rest : List ℕ) (one other : RestKind) → IsRest rest one → IsRest rest other → one ≡ other }
{}

/// No message begins what is between messages, cut or refused.
pub fn no_message_begins()
    ensures { NoMessageBegins }
{}

// ---- heads

/// Bytes that are no whole head are refused at once by one rule, said of what can follow them or of what
/// stands in them.
pub fn hopeless_by_rule()
    ensures { (bytes : List ℕ) → RuleAgrees bytes }
{}

/// What httparse's answers, and three tests that compute, say of heads.
pub fn heads_are_decided()
    ensures { HeadsDecided }
{}

// ---- more bytes

/// What is read stays read, and what is refused stays refused, whatever bytes follow.
pub fn read_stays()
    ensures { ReadStays }
{}

/// Exchanges that were read stay so, whatever bytes follow.
pub fn runs_stay<T, E>()
    ensures { (plans : Plans T E) (i : ℕ) (bytes more : List ℕ) (xs : List (Exchange E)) (j : ℕ) (rest : List ℕ)
        → Runs plans i bytes xs j rest → Runs plans i (bytes ++ more) xs j (rest ++ more) }
{}

// ---- sessions

/// The exchanges of a session are the messages of its bytes, and count them.
pub fn exchanges_are_requests<T, E>()
    // Where no further message is answered they are all of the messages.
    ensures all { WholeAreRequests T E }
    // So they are where the input decides the end,
    ensures served { ServedAreRequests T E }
    // and so they are of the bytes that were taken where the source failed.
    ensures failed { FailedAreRequests T E }
    ensures counted { (plans : Plans T E) (i : ℕ) (bytes : List ℕ) (xs : List (Exchange E)) (j : ℕ) (rest : List ℕ)
        → Runs plans i bytes xs j rest → j ≡ i + length xs }
{}

/// Where the input decides the end, it and the entries decide what is sent, the end and how many messages
/// were answered.
pub fn served_is_one<T, E>()
    ensures { ServedIsOne T E }
{}

/// The entries that a session made are of the first tasks of its messages, in their order, unless an end failed or the
/// store was worn.
pub fn entries_are_tasks<T, E>()
    ensures { EntriesAreTasks T E }
{
    requests_are_one();
}

/// Where memory ran out and the text that says so is then sent, the session has ended for want of memory.
pub fn memory_runs_out<T, E>()
    ensures { MemoryRunsOut T E }
{}
