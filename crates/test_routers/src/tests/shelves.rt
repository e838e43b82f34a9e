// Shelves of up to six generations, loaded in every order: which tables stay, and that each packet goes by the table of its own. Answers to
// lines, ways, and files by their names are in conformance/routers.txt and router_tables.txt.
use super::*;

const GENERATIONS: u64 = 6;

// The table of node 0 of 8 nodes in this generation: its one port leads to this neighbour, which is the landmark, and whose tree gives it
// the number 1.
fn spoke(rt: &impl Host, generation: u64, neighbour: u64) -> Vec<u8> {
    let rest = format!(in rt.alloc();
        "000001{neighbour:04x}0001000000000000000000000000000000000000000000000000000000\
         0001{neighbour:04x}00020000000000000000ffffffff00\
         {neighbour:04x}0001000100010000ffff0000010000000000"
    );
    table_bytes(rt, generation, ("00080000", got(rt, rest).as_str()))
}

// A shelf of the table that bytes spell.
fn shelf_of(rt: &impl Host, bytes: Vec<u8>) -> Shelf {
    let table = got(rt, TableFile::read(bytes));
    got(rt, Shelf::new(rt.alloc(), table))
}

// The text of an answer.
fn text_of(rt: &impl Host, answer: &Answer) -> String {
    again(rt, || answer.text(rt.alloc()))
}

// Sees that this is answered to a line.
fn expect(rt: &impl Host, shelf: &Shelf, line: &str, want: &str) {
    let text = text_of(rt, &shelf.answer(&asked_in(line.as_bytes())));
    assert!(rt; text.as_str() == want, "an answer");
}

// A text, where the generation of which it is told is kept.
fn or_gone(is_kept: bool, text: &str) -> &str {
    if is_kept { text } else { "generation gone" }
}

// Loads a table whose neighbour has this number, and sees what is answered.
fn load(rt: &impl Host, shelf: &mut Shelf, generation: u64, neighbour: u64, is_kept: bool) {
    let text = text_of(rt, &shelf.load_bytes(spoke(rt, generation, neighbour)));
    let done = got(rt, format!(in rt.alloc(); "generation={generation}"));
    same(rt, text.as_str(), or_gone(is_kept, done.as_str()), "loaded");
}

// Sees that a packet of this generation goes to this neighbour, or that its generation is gone.
fn expect_hop(rt: &impl Host, shelf: &Shelf, generation: u64, neighbour: u64, is_kept: bool) {
    let front = format!(in rt.alloc(); "{generation:016x}{neighbour:04x}{neighbour:04x}0000");
    let (front, behind) = (
        got(rt, front),
        "000000000000000000000000000000000000000000000000000000",
    );
    let line = got(rt, format!(in rt.alloc(); "hop {front}0007{behind}"));
    let goes = format!(in rt.alloc(); "port=0 next={neighbour} packet={front}0006{behind}");
    let goes = got(rt, goes);
    expect(rt, shelf, line.as_str(), or_gone(is_kept, goes.as_str()));
}

// The order with this number, of the 720.
fn order(rt: &impl Host, number: u64) -> Vec<u64> {
    let mut left = got(rt, Vec::from_slice(rt.alloc(), &[1u64, 2, 3, 4, 5, 6]));
    let mut order = Vec::new(rt.alloc());
    let mut rest = number;
    for taken in 0..GENERATIONS {
        let size = GENERATIONS - taken;
        let at = (rest % size) as usize;
        rest /= size;
        assert!(rt; at < left.len(), "one that is left");
        got(rt, order.push(left.remove(at)));
    }
    order
}

// Whether a generation is one of the newest four of those that were loaded.
fn is_kept(loaded: &[u64], generation: u64) -> bool {
    loaded.contains(&generation) && loaded.iter().filter(|other| generation < **other).count() < 4
}

// What `tables` answers.
fn tables_text(rt: &impl Host, loaded: &[u64]) -> String {
    let mut text = got(rt, String::from_str(rt.alloc(), "node=0 generations"));
    let mut before = "=";
    for generation in 1..=GENERATIONS {
        if is_kept(loaded, generation) {
            got(rt, write!(text, "{before}{generation}"));
            before = ",";
        }
    }
    text
}

// Sees which tables are there, where the newest says that the router is, and what becomes of a packet of each generation.
fn expect_tables(rt: &impl Host, shelf: &Shelf, loaded: &[u64]) {
    expect(rt, shelf, "tables", tables_text(rt, loaded).as_str());
    let newest = loaded.iter().copied().max().unwrap_or(0);
    let address = format!(in rt.alloc();
        "generation={newest} address={newest:016x}000001{newest:04x}0001\
         000000000000000000000000000000000000000000000000000000"
    );
    expect(rt, shelf, "address", got(rt, address).as_str());
    for generation in 0..8u64 {
        let is_kept = is_kept(loaded, generation);
        expect_hop(rt, shelf, generation, generation, is_kept);
    }
}

// Loads another table of each generation that is there, whose neighbour is node 7, and sees that it stands in the place of the first; and
// the first again.
fn expect_replaced(rt: &impl Host, shelf: &mut Shelf, loaded: &[u64]) {
    for generation in loaded {
        load(rt, shelf, *generation, 7, true);
        for other in loaded {
            let neighbour = if other == generation { 7 } else { *other };
            expect_hop(rt, shelf, *other, neighbour, true);
        }
        load(rt, shelf, *generation, *generation, true);
        expect_tables(rt, shelf, loaded);
    }
}

// Loads the generations in each order, and looks after each. In the first orders, each of up to four tables is replaced too.
#[test]
fn keeps_the_newest_four_in_every_order(rt: HostRuntime) {
    let rt = &rt;
    for number in 0..720u64 {
        let order = order(rt, number);
        let first = order.first().copied().unwrap_or(0);
        let mut shelf = shelf_of(rt, spoke(rt, first, first));
        let mut loaded = Vec::new(rt.alloc());
        for next in order {
            got(rt, loaded.push(next));
            load(rt, &mut shelf, next, next, is_kept(&loaded, next));
            expect_tables(rt, &shelf, &loaded);
            if number < 12 && loaded.len() <= 4 {
                expect_replaced(rt, &mut shelf, &loaded);
            }
        }
    }
}

// A shelf alone has no files; and the answers that no line of a test is given.
#[test]
fn has_no_file(rt: HostRuntime) {
    let rt = &rt;
    let shelf = shelf_of(rt, table_bytes(rt, 7, LAST));
    for line in ["load ", "load tables"] {
        expect(rt, &shelf, line, "not understood");
    }
    for (answer, want) in [
        (Answer::NotRead(ReadRefused::Memory), "out of memory"),
        (Answer::NotLoaded(LoadRefused::Memory), "out of memory"),
    ] {
        same(rt, text_of(rt, &answer).as_str(), want, "an answer");
    }
}

// Loads a table of the path's last router. Where memory is refused, the tables that were there are there, and it is loaded when it is
// tried again.
fn load_again(rt: &impl Host, shelf: &mut Shelf, generation: u64, before: &str, want: &str) {
    let mut text = text_of(rt, &shelf.load_bytes(table_bytes(rt, generation, LAST)));
    if text.as_str() == "out of memory" {
        expect(rt, shelf, "tables", before);
        text = text_of(rt, &shelf.load_bytes(table_bytes(rt, generation, LAST)));
    }
    assert!(rt; text.as_str() == want, "loaded");
}

// Run by `./refuse-memory`, each allocation refused in turn: a call that is refused memory says so and leaves the shelf as it was, and made
// again it does the whole.
#[test]
fn loads_and_answers_after_a_want_of_memory(rt: HostRuntime) {
    let rt = &rt;
    let mut shelf = again(rt, || {
        let table = TableFile::read(table_bytes(rt, 7, LAST));
        Shelf::new(rt.alloc(), got(rt, table))
    });
    for (generation, before, want) in [
        (9u64, "node=4 generations=7", "generation=9"),
        (8, "node=4 generations=7,9", "generation=8"),
        (10, "node=4 generations=7,8,9", "generation=10"),
        (11, "node=4 generations=7,8,9,10", "generation=11"),
        (9, "node=4 generations=8,9,10,11", "generation=9"),
        (7, "node=4 generations=8,9,10,11", "generation gone"),
    ] {
        load_again(rt, &mut shelf, generation, before, want);
    }
    expect(rt, &shelf, "tables", "node=4 generations=8,9,10,11");
    let packet = "0000000000000009000000020002000";
    let behind = "000000000000000000000000000000000000000000000000000000";
    let line = again(rt, || format!(in rt.alloc(); "hop {packet}4{behind}"));
    let want = again(
        rt,
        || format!(in rt.alloc(); "port=0 next=3 packet={packet}3{behind}"),
    );
    expect(rt, &shelf, line.as_str(), want.as_str());
}
