// What the tests share: a committer over a disk in memory, with editors, forwarders and a reader of its board.
ghost use Rattle.std.specs.Prelude.{◌≡◌, ◌<◌, ◌++◌, ◌∷◌, [], None, false};
ghost use Rattle.checkpoint.specs.StoreWords.{is_down};
ghost use Rattle.group_commit.specs.DeskWords.{store_of, held_of, due_of};
ghost use Rattle.committer.specs.CommitterWords.{posts_of};

use checkpoint::Store;
use committer::{Committer, RebuildRefused, Round, RoundRefused};
use disk_trait::{Disk, MemDisk, Plan};
use forwarders::Forwarder;
use generations::{Board, BoardReader, board};
use graph_edits::{Change, Op};
use group_commit::Desk;
use intake::{Editor, Outcome, SubmitRefused, open_intake};
use linked_list_allocator::LocalHeap;
use schemes::Scheme;
use std::alloc::{AllocError, Global};
use std::fmt::Debug;
use std::process::Abort;
use std::sync::{Arc, Wait};

// The value of an answer that has to have one.
pub(crate) fn got<T, E: Drop>(rt: &impl Abort, answer: Result<T, E>) -> T {
    match answer {
        Ok(value) => value,
        Err(_) => panic!(rt; "no value"),
    }
}

// Sees that two values are the same.
pub(crate) fn same<T: Copy + PartialEq + Debug>(rt: &impl Abort, found: T, want: T, name: &str) {
    assert_eq!(rt; found, want, "{name}");
}

/// The last element of a list that has one.
pub(crate) fn popped<T: Drop>(rt: &impl Abort, list: &mut Vec<T>) -> T
    ensures { list.old.items ≡ list.new.items ++ result ∷ [] }
{
    match list.pop() {
        Some(last) => last,
        None => panic!(rt; "an empty list"),
    }
}

// Words that make node 2 a landmark, and node 3.
pub(crate) const AT_TWO: [u64; 5] = [u64::MAX, u64::MAX, 0, u64::MAX, u64::MAX];

pub(crate) const AT_THREE: [u64; 5] = [u64::MAX, u64::MAX, u64::MAX, 0, u64::MAX];

pub(crate) const PATH: [Op; 4] = [
    Op::Add(0, 1, 1),
    Op::Add(1, 2, 1),
    Op::Add(2, 3, 1),
    Op::Add(3, 4, 1),
];

/// A desk over a disk.
pub(crate) fn opened<D: Disk + Drop>(rt: &impl Abort, alloc: Global, disk: D) -> Desk<D>
    ensures held { held_of result ≡ [] }
    ensures due { due_of result ≡ None }
    ensures up { is_down (store_of result) ≡ false }
{
    Desk::new(test_doubles::opened(alloc, disk).ok().expect(rt, "opened"))
}

/// A desk over a fresh device for five nodes.
pub(crate) fn fresh(rt: &impl Abort, alloc: Global) -> Desk<MemDisk>
    ensures held { held_of result ≡ [] }
    ensures due { due_of result ≡ None }
    ensures up { is_down (store_of result) ≡ false }
{
    opened(rt, alloc, got(rt, test_doubles::formatted(alloc, 5)))
}

/// A committer, four editors, three forwarders and a reader, all of one board.
#[derive(Drop)]
pub(crate) struct Seats<R: Wait + Drop> {
    pub committer: Committer<MemDisk, R>,
    pub first: Editor,
    pub second: Editor,
    pub others: [Editor; 2],
    pub one: Forwarder,
    pub two: Forwarder,
    pub three: Forwarder,
    pub reader: BoardReader,
    ghost first_seat: { first.known.opening ≡ (posts_of committer).opening },
    ghost second_seat: { second.known.opening ≡ (posts_of committer).opening },
    ghost one_seat: { one.opening ≡ (posts_of committer).opening },
    ghost two_seat: { two.opening ≡ (posts_of committer).opening },
    ghost three_seat: { three.opening ≡ (posts_of committer).opening },
    ghost reader_seat: { reader.all.opening ≡ (posts_of committer).opening },
}

/// A committer of this desk over a queue of so many places.
pub(crate) fn seated<R: Wait + Abort + Copy + Drop>(
    rt: R,
    alloc: Global,
    desk: Desk<MemDisk>,
    capacity: usize,
) -> Result<Seats<R>, AllocError>
    requires held { held_of desk ≡ [] }
    requires due { due_of desk ≡ None }
    requires up { is_down (store_of desk) ≡ false }
    requires capacity { 0 < capacity }
{
    let (starts, count) = (desk.starts(), desk.store().count());
    let (writer, mut readers) = board(alloc, rt, 8, &starts, count)?;
    let reader = popped(&rt, &mut readers);
    let three = popped(&rt, &mut readers);
    let two = popped(&rt, &mut readers);
    let one = popped(&rt, &mut readers);
    let (taker, mut editors) = open_intake(alloc, capacity, readers, &starts)?;
    let fourth = popped(&rt, &mut editors);
    let third = popped(&rt, &mut editors);
    let second = popped(&rt, &mut editors);
    let first = popped(&rt, &mut editors);
    Ok(Seats {
        committer: Committer::new(desk, taker, writer),
        first,
        second,
        others: [third, fourth],
        one: Forwarder::new(one),
        two: Forwarder::new(two),
        three: Forwarder::new(three),
        reader,
    })
}

/// A committer of a fresh device for five nodes, whose calls fail by this plan.
pub(crate) fn armed<R: Wait + Abort + Copy + Drop>(
    rt: R,
    alloc: Global,
    capacity: usize,
    plan: Plan,
) -> Seats<R>
    requires { 0 < capacity }
{
    let mut desk = fresh(&rt, alloc);
    desk.arm(plan);
    got(&rt, seated(rt, alloc, desk, capacity))
}

// A change of these ops.
pub(crate) fn change(rt: &impl Abort, ops: &[Op]) -> Change {
    Change::new(ops).expect(rt, "a change")
}

// Submits a change under a ticket.
fn submit<R: Wait + Abort>(rt: &R, editor: &mut Editor, ticket: u64, ops: &[Op])
    ensures { editor.new.known.opening ≡ editor.old.known.opening }
{
    let answer = editor.submit(rt, ticket, change(rt, ops));
    same(rt, answer.is_ok(), true, "submitted");
}

/// Submits a change under a ticket, which is refused and given back.
pub(crate) fn comes_back<R: Wait + Abort>(
    rt: &R,
    editor: &mut Editor,
    ticket: u64,
    ops: &[Op],
    why: SubmitRefused,
)
    ensures { editor.new.known.opening ≡ editor.old.known.opening }
{
    let answer = editor.submit(rt, ticket, change(rt, ops));
    let (refused, back) = answer.err().expect(rt, "refused");
    same(rt, refused, why, "why it is refused");
    let found = back == change(rt, ops);
    same(rt, found, true, "the change that comes back");
}

/// A round.
pub(crate) fn round<R: Wait + Drop>(
    rt: &R,
    alloc: Global,
    committer: &mut Committer<MemDisk, R>,
) -> Result<Round, RoundRefused>
    ensures { (posts_of committer.new).opening ≡ (posts_of committer.old).opening }
{
    committer.round(alloc, rt)
}

/// A rebuild.
pub(crate) fn rebuild<R: Wait + Drop>(
    alloc: Global,
    committer: &mut Committer<MemDisk, R>,
    words: &[u64],
    heap: &LocalHeap,
) -> Result<u64, RebuildRefused>
    ensures { (posts_of committer.new).opening ≡ (posts_of committer.old).opening }
{
    committer.rebuild(alloc, words, heap)
}

/// The number of the generation that is due.
pub(crate) fn due<R: Wait + Drop>(
    committer: &mut Committer<MemDisk, R>,
) -> Result<Option<u64>, RebuildRefused>
    ensures { (posts_of committer.new).opening ≡ (posts_of committer.old).opening }
{
    committer.generation_due()
}

/// Publishes once more what was posted, where no generation is due.
pub(crate) fn refresh<R: Wait + Abort + Drop>(rt: &R, committer: &mut Committer<MemDisk, R>)
    ensures { (posts_of committer.new).opening ≡ (posts_of committer.old).opening }
{
    match committer.generation_due() {
        Ok(None) => same(rt, committer.refresh(), Ok(()), "published again"),
        _ => panic!(rt; "a generation is due"),
    }
}

/// The count of a store, the last ticket of its first session, its edges, and the weights of 0-1 and 2-3.
pub(crate) type Left = (u64, u64, usize, [Option<u32>; 2]);

/// What a store has.
pub(crate) fn left(store: &Store<MemDisk>) -> Left {
    let graph = store.graph();
    let weights = [graph.weight(0, 1), graph.weight(2, 3)];
    (store.count(), store.resume(0), graph.edges(), weights)
}

/// The numbers of the generations on a shelf, the oldest of these first.
pub(crate) type Shelf = [Option<u64>; 4];

pub(crate) fn shelf_of(board: &Board) -> Shelf {
    let mut numbers = [None; 4];
    for (number, shelved) in numbers.iter_mut().zip(board.shelf().iter()) {
        if let Some(shelved) = shelved {
            *number = Some(shelved.number);
        }
    }
    numbers
}

/// Looks at a board, and sees its shelf. Gives the scheme of the oldest generation there, too.
pub(crate) fn shows(
    rt: &impl Abort,
    reader: BoardReader,
    want: Shelf,
) -> (BoardReader, Option<Arc<Scheme, Global>>)
    ensures { result.0.all.opening ≡ reader.all.opening }
{
    let look = reader.look().ok().expect(rt, "a look");
    same(rt, shelf_of(look.board()), want, "the shelf");
    let oldest = match look.board().shelf().first() {
        Some(Some(shelved)) => Arc::try_clone(&shelved.scheme).ok(),
        _ => None,
    };
    (look.leave(), oldest)
}

impl<R: Wait + Abort + Drop> Seats<R> {
    /// The editor of session 0 or of session 1 submits a change.
    pub(crate) fn submits(&mut self, rt: &R, session: u8, ticket: u64, ops: &[Op]) {
        if session == 0 {
            submit(rt, &mut self.first, ticket, ops);
        } else {
            submit(rt, &mut self.second, ticket, ops);
        }
    }

    /// Such an editor is told all that is posted.
    pub(crate) fn hears(&mut self, session: u8) {
        let told = self.committer.told();
        if session == 0 {
            self.first.learn(&told);
        } else {
            self.second.learn(&told);
        }
    }

    /// Sees what became of such an editor's last change.
    pub(crate) fn has(&mut self, rt: &R, session: u8, want: Outcome) {
        let found = if session == 0 {
            self.first.outcome()
        } else {
            self.second.outcome()
        };
        same(rt, (session, found), (session, Ok(want)), "an outcome");
    }

    /// All forwarders are told all that is posted.
    pub(crate) fn forwarders_hear(&mut self) {
        let told = self.committer.told();
        self.one.learn(&told);
        self.two.learn(&told);
        self.three.learn(&told);
    }

    /// Sees how many postings the first forwarder knows, and which generation is the newest for it.
    pub(crate) fn knows(&mut self, rt: &R, postings: u64, latest: Option<u64>) {
        same(rt, self.one.known().len(), postings, "what it was told");
        same(rt, self.one.latest(), Ok(latest), "the newest generation");
    }

    /// A round that takes so many requests and accepts so many.
    pub(crate) fn settles(&mut self, rt: &R, alloc: Global, taken: usize, accepted: usize) {
        let done = round(rt, alloc, &mut self.committer);
        same(rt, done, Ok(Round { taken, accepted }), "a round");
    }

    /// Builds the generation of this number.
    pub(crate) fn builds(&mut self, rt: &R, alloc: Global, heap: &LocalHeap, number: u64) {
        let built = rebuild(alloc, &mut self.committer, &AT_TWO, heap);
        same(rt, built, Ok(number), "a rebuild");
    }

    /// The first editor submits the change of this number: the first one makes the path, and each other one sets a weight.
    pub(crate) fn submits_next(&mut self, rt: &R, number: u32) {
        if number == 1 {
            self.submits(rt, 0, 1, &PATH);
        } else {
            self.submits(rt, 0, number as u64, &[Op::Set(0, 1, number)]);
        }
    }

    /// This change is settled, and its editor is told.
    pub(crate) fn changes(&mut self, rt: &R, alloc: Global, number: u32) {
        self.submits_next(rt, number);
        self.settles(rt, alloc, 1, 1);
        self.hears(0);
    }

    /// The changes behind so many up to the last one, and a generation behind each.
    pub(crate) fn posts_up_to(
        &mut self,
        rt: &R,
        alloc: Global,
        heap: &LocalHeap,
        posted: u32,
        last: u32,
    ) {
        for before in posted..last {
            let number = before.saturating_add(1);
            self.changes(rt, alloc, number);
            self.builds(rt, alloc, heap, number as u64);
        }
    }

    /// Sees the shelf of the board, and gives the scheme of its oldest generation.
    pub(crate) fn shows(self, rt: &R, want: Shelf) -> (Seats<R>, Option<Arc<Scheme, Global>>) {
        let Seats {
            committer,
            first,
            second,
            others,
            one,
            two,
            three,
            reader,
        } = self;
        let (reader, oldest) = shows(rt, reader, want);
        let at = Seats {
            committer,
            first,
            second,
            others,
            one,
            two,
            three,
            reader,
        };
        (at, oldest)
    }

    /// The disk alone. A test whose seats would be dropped ends by this: the drop is proved here and nowhere else.
    pub(crate) fn into_disk(self) -> MemDisk {
        self.committer.into_store().into_disk()
    }
}
