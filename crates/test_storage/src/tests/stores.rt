// What the tests share of stores and desks: requests, commits and rolls, made again where memory was short, and what is there then.
use super::*;

// Where the slots begin, their edges and their journals.

pub(super) const FIRST_SLOT: usize = 4096;

pub(super) const FIRST_AREA: usize = 532_480;

pub(super) const SECOND_SLOT: usize = 1_581_056;

pub(super) const SECOND_EDGES: usize = 1_581_591;

pub(super) const SECOND_AREA: usize = 2_109_440;

// ---- devices

pub(super) fn formatted(rt: &impl Host, nodes: u16) -> MemDisk {
    got(rt, test_doubles::formatted(rt.alloc(), nodes))
}

pub(super) fn opened(rt: &impl Host, disk: MemDisk) -> Store<MemDisk> {
    got(rt, test_doubles::opened(rt.alloc(), disk))
}

pub(super) fn reopened(rt: &impl Host, store: Store<MemDisk>) -> Store<MemDisk> {
    opened(rt, store.into_disk())
}

// Sees why a device can't be opened, and gives it back.
pub(super) fn is_refused(rt: &impl Host, disk: MemDisk, want: OpenRefused, name: &str) -> MemDisk {
    match test_doubles::opened(rt.alloc(), disk) {
        Ok(_) => panic!(rt; "{name}: opened"),
        Err((refused, disk)) => {
            same(rt, refused, want, name);
            disk
        }
    }
}

pub(super) fn desk_over(rt: &impl Abort, store: Store<MemDisk>) -> Desk<MemDisk> {
    let down = store.is_down();
    assert!(rt; !down);
    Desk::new(store)
}

pub(super) fn desk_on(rt: &impl Host, disk: MemDisk) -> Desk<MemDisk> {
    desk_over(rt, opened(rt, disk))
}

// ---- requests

// A request: its session, its ticket and its ops.
pub(super) type Asked<'a> = (u8, u64, &'a [Op]);

// Runs of requests of session 0: the first ticket, how many requests, and how many ops each.
pub(super) type Runs<'a> = &'a [(u64, u64, usize)];

pub(super) fn request(rt: &impl Abort, asked: Asked<'_>) -> Request {
    let (session, ticket, ops) = asked;
    Request {
        session,
        ticket,
        change: got(rt, Change::new(ops)),
    }
}

pub(super) fn give(rt: &impl Abort, desk: &mut Desk<MemDisk>, asked: Asked<'_>) {
    let request = request(rt, asked);
    let may = desk.due().is_none() && desk.held() < MOST_HELD && desk.is_next(&request);
    assert!(rt; may);
    desk.give(request);
}

pub(super) fn give_all(rt: &impl Abort, desk: &mut Desk<MemDisk>, asked: &[Asked]) {
    for one in asked {
        give(rt, desk, *one);
    }
}

// Gives such runs. Each op sets the edge 0-1 to the weight 1.
pub(super) fn give_sized(rt: &impl Abort, desk: &mut Desk<MemDisk>, runs: Runs<'_>) {
    let all = [Op::Set(0, 1, 1); 16];
    for (ticket, changes, ops) in runs {
        let ops = got(rt, all.get(..*ops).ok_or("too many ops"));
        for i in 0..*changes {
            give(rt, desk, (0, ticket.wrapping_add(i), ops));
        }
    }
}

// ---- commits and rolls

pub(super) fn commit(rt: &impl Host, desk: &mut Desk<MemDisk>) -> Result<usize, DeskRefused> {
    assert!(rt; desk.held() > 0);
    desk.commit(rt.alloc())
}

// The same, once more where memory was refused: the state of before stays, and nothing is due.
pub(super) fn commit_at_last(
    rt: &impl Host,
    desk: &mut Desk<MemDisk>,
) -> Result<usize, DeskRefused> {
    let before = (desk.held(), seen(desk.store()), true);
    let answer = commit(rt, desk);
    if answer != Err(DeskRefused::Memory) {
        return answer;
    }
    let left = (desk.held(), seen(desk.store()), desk.due().is_none());
    same(rt, left, before, "left");
    commit(rt, desk)
}

// The store of a desk that takes all that it holds.
pub(super) fn taken(rt: &impl Host, desk: Desk<MemDisk>) -> Store<MemDisk> {
    let mut desk = desk;
    let held = desk.held();
    same(rt, commit_at_last(rt, &mut desk), Ok(held), "committed");
    desk.into_store()
}

// A store that takes the requests of a table.
pub(super) fn commits(rt: &impl Host, store: Store<MemDisk>, asked: &[Asked]) -> Store<MemDisk> {
    let mut desk = desk_over(rt, store);
    give_all(rt, &mut desk, asked);
    taken(rt, desk)
}

pub(super) fn takes(rt: &impl Host, store: Store<MemDisk>, runs: Runs<'_>) -> Store<MemDisk> {
    let mut desk = desk_over(rt, store);
    give_sized(rt, &mut desk, runs);
    taken(rt, desk)
}

// A device for five nodes with one committed edge.
pub(super) fn with_edge(rt: &impl Host) -> MemDisk {
    let store = opened(rt, formatted(rt, 5));
    commits(rt, store, &[(0, 1, &[Op::Add(0, 1, 1)])]).into_disk()
}

// Rolls, again where memory was short.
pub(super) fn roll(rt: &impl Host, store: &mut Store<MemDisk>) -> Result<(), RollRefused> {
    match store.roll(rt.alloc()) {
        Err(RollRefused::Memory) => store.roll(rt.alloc()),
        answer => answer,
    }
}

pub(super) fn rolls(rt: &impl Host, store: &mut Store<MemDisk>) {
    got(rt, roll(rt, store));
}

// What a roll of a store that is down answers.
pub(super) const ROLL_DOWN: Result<(), RollRefused> = Err(RollRefused::Down);

// The device of a desk over which a plan that counts its calls stops a commit: that it is down is due once, the group stays held, the next
// commit and a roll are refused, and what is there stays.
pub(super) fn stopped(rt: &impl Host, desk: Desk<MemDisk>, plan: Plan) -> MemDisk {
    let mut desk = desk;
    let left = (desk.held(), seen(desk.store()));
    desk.arm(plan);
    same(rt, commit(rt, &mut desk), Err(DeskRefused::Device), "fails");
    same(rt, matches!(desk.paid(), Some(Posting::Down)), true, "told");
    same(rt, (desk.held(), seen(desk.store())), left, "left");
    same(rt, commit(rt, &mut desk), Err(DeskRefused::Down), "again");
    same(rt, desk.due().is_some(), false, "told once");
    let held = desk.held();
    let mut store = desk.into_store();
    let rolled = (store.is_down(), roll(rt, &mut store));
    same(rt, rolled, (true, ROLL_DOWN), "rolled");
    same(rt, (held, seen(&store)), left, "as it was");
    store.into_disk()
}

// ---- what is there

// Count, edges and the weight of one edge.
pub(super) type Shown = (u64, usize, Option<u32>);

pub(super) fn shown(store: &Store<MemDisk>, a: u16, b: u16) -> Shown {
    let graph = store.graph();
    (store.count(), graph.edges(), graph.weight(a, b))
}

// What a store shows of the edge 0-1, the weight of 1-2, and the last tickets of the sessions 0, 4, 9 and 63.
pub(super) type Seen = (Shown, Option<u32>, [u64; 4]);

pub(super) fn seen(store: &Store<MemDisk>) -> Seen {
    let tickets = [
        store.resume(0),
        store.resume(4),
        store.resume(9),
        store.resume(63),
    ];
    (shown(store, 0, 1), store.graph().weight(1, 2), tickets)
}

// What a store with one committed edge shows.
pub(super) const WITH_EDGE: Seen = ((1, 1, Some(1)), None, [1, 0, 0, 0]);

// The device of a store that shows this of the edge 0-1: a function that drops a store itself takes longer to prove.
pub(super) fn ends(rt: &impl Abort, store: Store<MemDisk>, want: Shown, name: &str) -> MemDisk {
    same(rt, shown(&store, 0, 1), want, name);
    store.into_disk()
}
