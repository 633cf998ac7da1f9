// The calls of a host on a log, which is the first `used` bytes of its buffer.
ghost use Rattle.std.specs.Prelude.{◌≡◌, ◌&&◌, [], ◌++◌, ◌≤◌, leb, length};
ghost use Rattle.text.specs.Text.{put_of};
ghost use Rattle.joblog.specs.Records.{record_as, bytes_of, whole_of, after_of, compacted_of};
ghost use Rattle.joblog.specs.Parts.{tag_of, NewInTurn, RestartedTo};
ghost use Rattle.joblog.specs.Calls.{refused, answered, read_answer, read_log_of, compact_answer, new_in_turn, logged_of, appended_of};
ghost use Rattle.joblog.specs.Calls.{append_of, restarted_of, restart_of};

use super::records::{Kind, OutOfTurn, State, scan};
use super::writing::{open_pages, put_compacted, put_record};
use refusals::{BUFFER_SHORT, LOG_COUNT_OUTSIDE, LOG_OUT_OF_TURN, LOG_SECOND_SHORT};

// What each call returns. `number` is 0, or that of a refusal; then `place` is its place and every other field is 0. `moved` is 1 if the
// log is now in the second buffer.
#[repr(C)]
#[derive(Clone, Copy)]
pub struct Log {
    pub number: u32,
    pub place: u32,
    pub moved: u32,
    pub finished: u32,
    pub sent: u32,
    pub used: usize,
}

fn refuse(number: u32, place: u32) -> Log
    ensures { result ≡ refused number place }
{
    Log {
        number,
        place,
        moved: 0,
        finished: 0,
        sent: 0,
        used: 0,
    }
}

fn answer(moved: u32, says: State, used: usize) -> Log
    ensures { result ≡ answered moved says used }
{
    Log {
        number: 0,
        place: 0,
        moved,
        finished: u32::from(says.finished),
        sent: u32::from(says.sent),
        used,
    }
}

// The bytes of the whole records. The next record begins after them.
fn whole(used: usize) -> usize
    ensures { result ≡ whole_of used }
{
    used / 5 * 5
}

#[tactic(auto, unfolding(crate::specs::Calls::read_answer))]
fn read_answer(reading: Result<State, OutOfTurn>, used: usize) -> Log
    ensures { result ≡ read_answer used reading }
{
    match reading {
        Ok(s) => answer(0, s, whole(used)),
        Err(e) => refuse(LOG_OUT_OF_TURN, u32::from(e.page)),
    }
}

// What the log says: its finished and sent pages, and where its next record begins.
pub fn read_log(log: &[u8], used: usize) -> Log
    ensures { result ≡ read_log_of log.now used }
{
    if used > log.len() {
        return refuse(BUFFER_SHORT, 0);
    }
    read_answer(scan(&log[..used]), used)
}

// Writes the compacted log into the second buffer. Returns 12 if it is too short.
fn compact(s: State, place: u32, second: &mut [u8]) -> Log
    ensures value { result ≡ compact_answer s (compacted_of s) place second.old }
    ensures second_after { second.new ≡ put_of second.old 0 (compacted_of s) }
{
    if 5 + 5 * open_pages(s) > second.len() {
        return refuse(LOG_SECOND_SHORT, place);
    }
    let used = put_compacted(&mut second[..], s);
    answer(1, s, used)
}

// The same, with the new record after the open pages.
fn compact_with(s: State, kind: Kind, page: u16, second: &mut [u8]) -> Log
    ensures value { result ≡ compact_answer (after_of s (record_as (tag_of kind) page)) (compacted_of s ++ bytes_of (tag_of kind) page) page second.old }
    ensures second_after { second.new ≡ put_of second.old 0 (compacted_of s ++ bytes_of (tag_of kind) page) }
{
    if 10 + 5 * open_pages(s) > second.len() {
        return refuse(LOG_SECOND_SHORT, u32::from(page));
    }
    let at = put_compacted(&mut second[..], s);
    put_record(&mut second[..], at, kind, page);
    answer(1, s.with(kind, page), at + 5)
}

// Writes the new record after the whole ones. If the log is full, it is compacted into the second buffer with the new record.
fn write(s: State, log: &mut [u8], used: usize, kind: Kind, page: u16, second: &mut [u8]) -> Log
    requires { used ≤ length log.old }
    ensures value { result ≡ (logged_of s log.old used (tag_of kind) page second.old).answer }
    ensures log_after { log.new ≡ (logged_of s log.old used (tag_of kind) page second.old).log }
    ensures second_after { second.new ≡ (logged_of s log.old used (tag_of kind) page second.old).second }
{
    let at = whole(used);
    if log.len() - at >= 5 {
        put_record(&mut log[..], at, kind, page);
        return answer(0, s.with(kind, page), at + 5);
    }
    compact_with(s, kind, page, &mut second[..])
}

// A record that may be appended, or None. It has two bytes for its page, so a larger page would be written as another one.
#[tactic(auto, unfolding(crate::specs::Calls::new_in_turn, crate::specs::Records::in_turn))]
fn new_in_turn(s: State, tag: u32, page: u32) -> Option<(Kind, u16)>
    ensures { NewInTurn s tag page result }
{
    let kind = Kind::of_tag(tag)?;
    let page = u16::try_from(page).ok()?;
    s.takes(false, kind, page).then_some((kind, page))
}

// Appends a record to a log that has been read.
fn append_read(
    reading: Result<State, OutOfTurn>,
    log: &mut [u8],
    used: usize,
    tag: u32,
    page: u32,
    second: &mut [u8],
) -> Log
    requires { used ≤ length log.old }
    ensures value { result ≡ (appended_of reading log.old used tag page second.old).answer }
    ensures log_after { log.new ≡ (appended_of reading log.old used tag page second.old).log }
    ensures second_after { second.new ≡ (appended_of reading log.old used tag page second.old).second }
{
    match reading {
        Ok(s) => match new_in_turn(s, tag, page) {
            Some((kind, new)) => write(s, &mut log[..], used, kind, new, &mut second[..]),
            None => refuse(LOG_OUT_OF_TURN, page),
        },
        Err(e) => refuse(LOG_OUT_OF_TURN, u32::from(e.page)),
    }
}

// Appends a record to the log. The log's own records are checked before the new one.
pub fn append(log: &mut [u8], used: usize, tag: u32, page: u32, second: &mut [u8]) -> Log
    ensures value { result ≡ (append_of log.old used tag page second.old).answer }
    ensures log_after { log.new ≡ (append_of log.old used tag page second.old).log }
    ensures second_after { second.new ≡ (append_of log.old used tag page second.old).second }
{
    if used > log.len() {
        return refuse(BUFFER_SHORT, 0);
    }
    let reading = scan(&log[..used]);
    append_read(reading, &mut log[..], used, tag, page, &mut second[..])
}

// The state after a restart with this count, or None if it is outside the log's finished and sent pages.
fn restarted(s: State, count: u32) -> Option<State>
    ensures { RestartedTo s count result }
{
    let finished = u16::try_from(count).ok()?;
    (s.finished..=s.sent).contains(&finished).then_some(State {
        finished,
        sent: s.sent,
    })
}

// What a restart writes depends only on what the log says, so the contract has no bytes of the first buffer.
fn restart_read(reading: Result<State, OutOfTurn>, count: u32, second: &mut [u8]) -> Log
    ensures value { result ≡ (restarted_of reading [] count second.old).answer }
    ensures second_after { second.new ≡ (restarted_of reading [] count second.old).second }
{
    match reading {
        Ok(s) => match restarted(s, count) {
            Some(t) => compact(t, count, &mut second[..]),
            None => refuse(LOG_COUNT_OUTSIDE, count),
        },
        Err(e) => refuse(LOG_OUT_OF_TURN, u32::from(e.page)),
    }
}

// Compacts the log with `count`, the pages that the embosser has finished. The open pages after them are sent again.
pub fn restart(log: &[u8], used: usize, count: u32, second: &mut [u8]) -> Log
    ensures value { result ≡ (restart_of log.now used count second.old).answer }
    ensures second_after { second.new ≡ (restart_of log.now used count second.old).second }
{
    if used > log.len() {
        return refuse(BUFFER_SHORT, 0);
    }
    restart_read(scan(&log[..used]), count, second)
}
