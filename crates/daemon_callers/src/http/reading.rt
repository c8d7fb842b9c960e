ghost use Rattle.std.specs.Prelude.{◌≡◌, ◌≤◌, ◌++◌, [], false, IfOk, IsTrue, length};
ghost use Rattle.nsq_base.specs.declared.options.Options.{Options};
ghost use Rattle.broker_history.specs.Entries.{own};
ghost use Rattle.broker_history.specs.Talk.{bytes_of, longest_piece};
ghost use Rattle.daemon_callers.specs.Exchange.{IsOpen};
ghost use Rattle.daemon_callers.specs.Comings.{Looks, IsReading, ComesTo, Fetches, HasCameCause, HasFetchCause, EndsOtherwise, FetchEndsOtherwise, ended_at};

use crate::EndedHttp;
use crate::http::turns::{Ticked, tick};
use broker_history::Desk;
use http_calls::{Refusal, refusal_of};
use http_wire::{GotRequest, Request, RequestReader};
use nsq_base::Memory;
use nsq_outside::{Conn, Read, get};
use std::alloc::Global;
use std::sync::Wait;

/// The most bytes that one read takes.
const LONGEST_PIECE: usize = 16_384;

/// What the reading of a request came to.
#[derive(Drop)]
pub(crate) enum Came {
    /// A whole request.
    Whole(Request),
    /// Bytes that are no request, for this reason.
    Refused(Refusal),
    /// The end of the connection, without an answer.
    Over(EndedHttp),
    /// Want of memory.
    Memory,
}

/// What is kept of a connection while its request is read.
#[derive(Drop)]
struct Intake {
    /// What came, and the request that it is.
    reader: RequestReader,
    /// Where a piece is read.
    piece: Vec<u8>,
    /// Whether a piece came.
    begun: bool,
    ghost whole: { length piece.items ≡ longest_piece },
}

/// Reads pieces until they are a request with a body of at most so many bytes, or no request, or until the connection is over.
pub(crate) fn read_request<R: Wait, K: Conn, D: Desk>(
    rt: &R,
    alloc: Global,
    number: u64,
    conn: &mut K,
    desk: &mut D,
    limit: u32,
) -> Came
    requires number { number ≡ D.number desk.old }
    ensures came { (o : Options) → o.max_body_size ≡ limit → IsTrue K.tells_pieces → IsTrue D.tells → K.pieces conn.old ≡ [] → own number (D.seen desk.old) ≡ []
        → ComesTo o number (K.pieces conn.new) (D.seen desk.new) result }
    ensures cause { HasCameCause result (K.ended conn.new) (K.read_faults conn.old) (K.read_faults conn.new) (K.write_faults conn.old) (K.write_faults conn.new) }
    ensures otherwise { EndsOtherwise result }
    ensures stream { IsTrue K.tells_pieces → bytes_of (K.pieces conn.new) ++ K.left conn.new ≡ bytes_of (K.pieces conn.old) ++ K.left conn.old }
    ensures written { K.written conn.new ≡ K.written conn.old }
    ensures read_faults { K.read_faults conn.old ≤ K.read_faults conn.new }
    ensures write_faults { K.write_faults conn.old ≤ K.write_faults conn.new }
    ensures number { D.number desk.new ≡ D.number desk.old }
    ensures wanted { D.wanted desk.new ≡ D.wanted desk.old }
    ensures leads { D.leads desk.old desk.new }
{
    let Ok(mut intake) = new_intake(alloc, limit) else {
        return Came::Memory;
    };
    read_on(rt, alloc, number, conn, desk, &mut intake)
}

/// An intake to which nothing came yet. Want of memory is the only error.
fn new_intake(alloc: Global, limit: u32) -> Result<Intake, Memory>
    ensures { IfOk result (λ intake. (intake.reader ≡ record { limit = limit; bytes = [] }) × (intake.begun ≡ false)) }
{
    let reader = RequestReader::new(alloc, limit)?;
    let piece = vec![in alloc; 0u8; LONGEST_PIECE]?;
    Ok(Intake {
        reader,
        piece,
        begun: false,
    })
}

/// Asks what the bytes are, and reads a further piece where they are the beginning of a request, again and again.
fn read_on<R: Wait, K: Conn, D: Desk>(
    rt: &R,
    alloc: Global,
    number: u64,
    conn: &mut K,
    desk: &mut D,
    intake: &mut Intake,
) -> Came
    requires number { number ≡ D.number desk.old }
    ensures came { (o : Options) → IsTrue K.tells_pieces → IsTrue D.tells → IsReading o number (K.pieces conn.old) (D.seen desk.old) intake.old.reader intake.old.begun
        → ComesTo o number (K.pieces conn.new) (D.seen desk.new) result }
    ensures cause { HasCameCause result (K.ended conn.new) (K.read_faults conn.old) (K.read_faults conn.new) (K.write_faults conn.old) (K.write_faults conn.new) }
    ensures otherwise { EndsOtherwise result }
    ensures stream { IsTrue K.tells_pieces → bytes_of (K.pieces conn.new) ++ K.left conn.new ≡ bytes_of (K.pieces conn.old) ++ K.left conn.old }
    ensures written { K.written conn.new ≡ K.written conn.old }
    ensures read_faults { K.read_faults conn.old ≤ K.read_faults conn.new }
    ensures write_faults { K.write_faults conn.old ≤ K.write_faults conn.new }
    ensures number { D.number desk.new ≡ D.number desk.old }
    ensures wanted { D.wanted desk.new ≡ D.wanted desk.old }
    ensures leads { D.leads desk.old desk.new }
{
    'reads: for _ in rt.forever() {
        match look(&mut intake.reader) {
            Some(came) => return came,
            None => {}
        }
        match fetch(rt, alloc, number, conn, desk, intake) {
            Some(came) => return came,
            None => {}
        }
    }
    unreachable!()
}

/// What all bytes that came are, unless they are the beginning of a request.
fn look(reader: &mut RequestReader) -> Option<Came>
    ensures looks { Looks reader.old.limit reader.old.bytes result }
    ensures same { reader.new ≡ reader.old }
{
    let got = reader.next();
    if let Some(refusal) = refusal_of(&got) {
        return Some(Came::Refused(refusal));
    }
    match got {
        GotRequest::Whole(request) => Some(Came::Whole(request)),
        GotRequest::More => None,
        _ => Some(Came::Memory),
    }
}

/// Reads one piece behind the beginning of a request. Where nothing comes, the desk makes a tick. Unless the connection goes on, it says
/// what that came to.
fn fetch<R: Wait, K: Conn, D: Desk>(
    rt: &R,
    alloc: Global,
    number: u64,
    conn: &mut K,
    desk: &mut D,
    intake: &mut Intake,
) -> Option<Came>
    requires number { number ≡ D.number desk.old }
    ensures came { (o : Options) → IsTrue K.tells_pieces → IsTrue D.tells → IsReading o number (K.pieces conn.old) (D.seen desk.old) intake.old.reader intake.old.begun
        → IsOpen o (K.pieces conn.old) → Fetches o number (K.pieces conn.new) (D.seen desk.new) intake.new.reader intake.new.begun result }
    ensures cause { HasFetchCause result (K.ended conn.new) (K.read_faults conn.old) (K.read_faults conn.new) (K.write_faults conn.old) (K.write_faults conn.new) }
    ensures otherwise { FetchEndsOtherwise result }
    ensures stream { IsTrue K.tells_pieces → bytes_of (K.pieces conn.new) ++ K.left conn.new ≡ bytes_of (K.pieces conn.old) ++ K.left conn.old }
    ensures written { K.written conn.new ≡ K.written conn.old }
    ensures read_faults { K.read_faults conn.old ≤ K.read_faults conn.new }
    ensures write_faults { K.write_faults conn.old ≤ K.write_faults conn.new }
    ensures number { D.number desk.new ≡ D.number desk.old }
    ensures wanted { D.wanted desk.new ≡ D.wanted desk.old }
    ensures leads { D.leads desk.old desk.new }
{
    match get(rt, conn, &mut intake.piece) {
        Read::Got(count) => {
            intake.begun = true;
            if intake.reader.feed(&intake.piece[..count]).is_err() {
                return Some(Came::Memory);
            }
            None
        }
        Read::Nothing => match tick(rt, alloc, number, desk) {
            Ticked::Goes => None,
            Ticked::Closed => Some(Came::Over(EndedHttp::Closed)),
            Ticked::Memory => Some(Came::Memory),
        },
        Read::End => Some(Came::Over(ended_at(intake.begun))),
        Read::Failed => Some(Came::Over(EndedHttp::ReadFault)),
    }
}

/// How a connection ends at the end of its input, where something came or nothing did, before a request was whole.
fn ended_at(begun: bool) -> EndedHttp
    ensures { result ≡ ended_at begun }
{
    if begun {
        EndedHttp::Cut
    } else {
        EndedHttp::EndOfInput
    }
}
