// The threads, the places and the rounds that words ask of a service, which no line shows; and requests, whose copies stand alone. Other words are in conformance/options.txt and words.txt.
// In a line of words a bar stands between each two.
use crate::helpers::{got, same};
use command_line::{Task, parse_task};
use graph_edits::{Change, Op};
use requests::Request;
use value_syntax::LandmarkWords;

// Words, and the editors, forwarders and places that they ask for, and after how many rounds a change is in a generation at the latest.
const SERVICES: [(&str, (u8, u8, u8), Option<u16>); 6] = [
    ("serve|d|--words|none", (2, 2, 64), None),
    (
        "serve|d|--editors|1|--words=none|--queue|64",
        (1, 2, 64),
        None,
    ),
    (
        "serve|--forwarders=64|--queue=1|--editors=64|d|--words|none",
        (64, 64, 1),
        None,
    ),
    ("serve|d|--words|none|--live", (2, 2, 64), Some(16)),
    (
        "serve|--live|d|--words|none|--rounds|1",
        (2, 2, 64),
        Some(1),
    ),
    (
        "serve|d|--rounds=65535|--words|none|--live",
        (2, 2, 64),
        Some(65_535),
    ),
];

#[test]
fn services(rt: HostRuntime) {
    let (rt, alloc) = (&rt, rt.alloc());
    for (line, (editors, forwarders, places), live) in &SERVICES {
        let task = Task::Serve {
            device: "d",
            editors: *editors,
            forwarders: *forwarders,
            places: *places,
            live: *live,
            words: LandmarkWords::Greatest,
        };
        let words: Vec<&str> = got(rt, line.split('|').collect(alloc));
        let found = parse_task(alloc, &words) == Ok(task);
        same(rt, found, true, line);
    }
}

// A copy is equal, also where it is changed then.
#[test]
fn copies(rt: HostRuntime) {
    let rt = &rt;
    let ops = [Op::Add(0, 1, 5), Op::Set(1, 2, 7), Op::Cut(2, 3)];
    let request = Request {
        session: 63,
        ticket: 9,
        change: got(rt, Change::new(&ops)),
    };
    let mut copy = request.copy();
    same(rt, &copy, &request, "a copy");
    let parts = (copy.session, copy.ticket, copy.change.ops());
    same(rt, parts, (63, 9, ops.as_slice()), "a copy");
    copy.ticket = 10;
    same(rt, copy == request, false, "a copy with another ticket");
}
