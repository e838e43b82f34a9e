// Stops of calls, tables of kinds, and a rehearsal whose last life is stopped; a long text; and the lines that no rehearsal of conformance/ is
// answered.
//
// The numbers are those of docs/FORMATS.md. A group of n requests with m ops in all is a record of 2 + 10 n + 9 m bytes. A commit writes its
// length, the record and the next gate, 4 and 1 bytes more, in one write; then come a sync, the write of one byte, the gate, and a sync.
// A write of b bytes has b + 1 stops, a sync has one. So one request of one op, 21 bytes, has 27 + 1 + 2 + 1 = 31 stops: at the last two
// of them the gate was put. The next opening finds the change then if the crash leaves what was written (1), and doesn't if it leaves
// what the last good sync had settled (0).
use super::*;

// A read has one stop, a write of two bytes three, a sync one.
#[test]
fn lists_the_stops_of_calls(rt: HostRuntime) {
    let calls = [Call::Read, Call::Write(2), Call::Sync];
    let want = [(1, 0), (2, 0), (2, 1), (2, 2), (3, 0)].map(|(call, put)| Stop { call, put });
    for most in 0..6usize {
        let stops = got(&rt, stops_of(rt.alloc(), &calls, most));
        same(&rt, stops.as_slice(), &want[..most.min(5)], "the stops");
    }
}

// The widest write. A function of its own hides its length from the prover, which would else list its stops one by one.
fn widest() -> Call {
    Call::Write(usize::MAX)
}

// The calls since it was armed; a crash leaves what was noted. The write of three bytes has four stops. The sync, which fails, has one, and
// so has the read. A count that is too great for its type is the greatest number.
#[test]
fn notes_calls_and_counts_their_stops(rt: HostRuntime) {
    let (rt, alloc) = (&rt, rt.alloc());
    let mut disk = Watched::new(alloc, got(rt, MemDisk::new(alloc, 16)));
    got(rt, disk.sync());
    disk.arm(Plan::Fail(2));
    assert!(rt; disk.len() == 16);
    got(rt, disk.write_at(3, &[1, 2, 3]));
    assert!(rt; disk.sync().is_err());
    let mut bytes = [0; 4];
    assert!(rt; disk.len() == 16);
    got(rt, disk.read(2, &mut bytes));
    same(rt, bytes, [0, 1, 2, 3], "the bytes");
    let calls = got(rt, disk.crash(0).into_calls());
    let want = [Call::Write(3), Call::Sync, Call::Read];
    same(rt, calls.as_slice(), want.as_slice(), "the calls");
    let (none, most) = (count_stops(&[]), count_stops(&[widest(), Call::Sync]));
    same(
        rt,
        (count_stops(&calls), none, most),
        (6, 0, u64::MAX),
        "stops",
    );
}

// Seven trials of four kinds, of which each two differ in one number.
#[test]
fn counts_kinds_in_order(rt: HostRuntime) {
    let (rt, alloc) = (&rt, rt.alloc());
    let (first, second) = (kind(0, 2, 3), kind(1, 1, 3));
    let (third, fourth) = (kind(1, 2, 3), kind(1, 2, 4));
    let kinds = [third, fourth, first, third, second, third, first];
    let want = [(first, 2), (second, 1), (third, 3), (fourth, 1)];
    let want = want.map(|(kind, trials)| KindCount { kind, trials });
    let table = got(rt, table_of(alloc, &kinds));
    same(rt, table.as_slice(), want.as_slice(), "the table");
    assert!(rt; got(rt, table_of(alloc, &[])).is_empty());
}

fn trial(call: u64, put: usize, acknowledged: u64, opened: u64) -> StopFound {
    StopFound {
        stop: Stop { call, put },
        kind: kind(0, acknowledged, opened),
    }
}

// A commit of one change: the record, a sync, the gate, and a sync. Tried are the whole record without the gate, the gate, and a stop
// behind the last call: none meets that one, so the change is answered Ok.
#[test]
fn tries_stops_of_the_last_life(rt: HostRuntime) {
    let (rt, alloc) = (&rt, rt.alloc());
    let mut rehearsal = asked_in(rt, ONE_CHANGE);
    assert!(rt; rehearsal.lives.len() >= 2);
    let calls = got(rt, calls_of_last(alloc, &mut rehearsal));
    let want = [Call::Write(26), Call::Sync, Call::Write(1), Call::Sync];
    same(rt, calls.as_slice(), want.as_slice(), "the calls");
    let wanted = [trial(1, 26, 0, 0), trial(3, 1, 0, 1), trial(5, 0, 1, 1)];
    let stops = wanted.map(|trial| trial.stop);
    let tried = try_stops(alloc, &mut rehearsal, &stops, |_: usize| {});
    assert!(rt; got(rt, tried).as_slice() == wanted.as_slice(), "trials");
    for want in wanted {
        assert!(rt; rehearsal.lives.len() >= 2);
        let found = got(rt, try_stop(alloc, &mut rehearsal, want.stop));
        same(rt, found, want, "a trial");
    }
}

// A rehearsal of 100,000 events, the n-th by the ticket n. Where the last line alone isn't understood, all lines before it are.
#[test]
fn reads_a_long_rehearsal(rt: HostRuntime) {
    let rt = &rt;
    let begin = "device 5\nlife sessions=1 places=1 words=none crash=0\n";
    let mut text = got(rt, String::from_str(rt.alloc(), begin));
    for ticket in 1..100_001u64 {
        got(rt, writeln!(text, "submit 0 {ticket} set:0:1:{ticket}"));
    }
    let lines = read(rt, text.as_str());
    same(rt, lines.len(), 100_002, "lines");
    let change = got(rt, Change::new(&[Op::Set(0, 1, 100_000)]));
    let last = RehearsalLine::Submit(0, 100_000, change);
    same(rt, lines.last(), Some(&last), "the last line");
    got(rt, text.push_str("sumbit 0 1 cut:0:1"));
    let Ok(Err(refused)) = read_rehearsal(rt.alloc(), text.as_str()) else {
        panic!(rt; "not refused");
    };
    let (number, form) = (100_003, Form::Line);
    same(rt, refused, LineRefused { number, form }, "the line");
}

#[test]
fn says_each_other_reply_and_why_a_life_could_not_open(rt: HostRuntime) {
    let board_shut = Reply::NotSubmitted(SubmitRefused::BoardShut);
    let no_memory = Reply::NotCommitted(DeskRefused::Memory);
    for (reply, want) in [
        (board_shut, "refused board shut"),
        (no_memory, "not committed memory"),
        (Reply::NotCommitted(DeskRefused::Worn), "not committed worn"),
        (Reply::NotRouted(RouteRefused::BoardShut), "board shut"),
        (Reply::NotRouted(RouteRefused::Stray), "stray packet"),
        (Reply::NotRouted(RouteRefused::Spent), "no hop left"),
        (Reply::Memory, "out of memory"),
    ] {
        let text = got(&rt, format!(in rt.alloc(); "{}", ReplyLine { reply }));
        same(&rt, text.as_str(), want, "a reply");
    }
    for (refused, want) in [
        (OpenRefused::NotFormatted, "not opened not formatted"),
        (OpenRefused::BadVersion, "not opened layout not known"),
        (OpenRefused::Damaged, "not opened damaged"),
        (OpenRefused::Device, "not opened device"),
        (OpenRefused::Memory, "not opened memory"),
    ] {
        let text = got(&rt, format!(in rt.alloc(); "{}", NotOpenedLine { refused }));
        same(&rt, text.as_str(), want, "why");
    }
}
