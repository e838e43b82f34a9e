// Tables of which a byte is changed, that are cut, that go on behind their end, or that are drawn: each is refused by its own name, by a
// view as by a table, or is written as it was read. How whole tables are written and read, and what is told of a wrong one, is in
// conformance/tables.txt, router_tables.txt and table_bytes.txt.
use super::*;

// Why bytes are no table, where they are none: a view says the same. What is read is written as it is.
fn refusal_of(rt: &impl Host, bytes: &[u8]) -> Option<ReadRefused> {
    let table = RouterTable::read(rt.alloc(), bytes);
    if let Ok(table) = &table {
        let again = got(rt, table.write(rt.alloc()));
        assert!(rt; again.as_slice() == bytes, "written otherwise");
    }
    let refused = table.err();
    same(
        rt,
        TableView::read(bytes).err(),
        refused,
        "a refusal by view",
    );
    refused
}

// Writes the digest of the bytes before it at the end.
fn mend(bytes: &mut [u8]) {
    if let Some(at) = bytes.len().checked_sub(32) {
        let digest = Sha256::digest(&bytes[..at]);
        bytes[at..].copy_from_slice(&digest);
    }
}

// A number of two bytes.
fn number_at(bytes: &[u8], at: usize) -> Option<u16> {
    let high = bytes.get(at).copied()?;
    let low = bytes.get(at.saturating_add(1)).copied()?;
    Some(u16::from_be_bytes([high, low]))
}

// Where the members of a directory end that begins here.
fn directory_end(bytes: &[u8], at: usize) -> Option<usize> {
    let mut end = at.saturating_add(2);
    for _ in 0..number_at(bytes, at)? {
        let ports = bytes.get(end.saturating_add(4)).copied()?;
        end = end.saturating_add(5 + 2 * ports as usize);
    }
    Some(end)
}

// How many bytes a table takes, by the counts in it. None where a count stands behind the end.
fn size_by_counts(bytes: &[u8]) -> Option<usize> {
    let entries_at = 64 + 2 * number_at(bytes, 62)? as usize;
    let directory_at = entries_at + 2 + 13 * number_at(bytes, entries_at)? as usize;
    Some(directory_end(bytes, directory_at)?.saturating_add(32))
}

// Why bytes are refused that have a table's front, by this name where their counts are right.
fn wrong_inside(bytes: &[u8], otherwise: ReadRefused) -> ReadRefused {
    match size_by_counts(bytes) {
        Some(size) if size < bytes.len() => ReadRefused::TooLong,
        Some(size) if size == bytes.len() => otherwise,
        _ => ReadRefused::CutShort,
    }
}

// Why a table is refused whose byte at this place was changed.
fn wrong_at(bytes: &[u8], at: usize, otherwise: ReadRefused) -> ReadRefused {
    match at {
        0..=5 => ReadRefused::NoTable,
        6 | 7 => ReadRefused::UnknownVersion,
        _ => wrong_inside(bytes, otherwise),
    }
}

// Mends the digest of a table whose byte at this place may be another one. Answers whether it is read; else it is refused by its front,
// its size or its order.
fn is_read_mended(rt: &impl Host, bytes: &mut [u8], at: usize) -> bool {
    mend(bytes);
    let refused = refusal_of(rt, bytes);
    if refused.is_some() {
        let want = wrong_at(bytes, at, ReadRefused::NotInOrder);
        same(rt, refused, Some(want), "a mended table");
    }
    refused.is_none()
}

// The places of bytes of the last router's table that may be others in a table in order: the number of nodes; the number and the port of
// the address's label; of each entry the heavy last and the light depth; and the number of the member's label.
const FREE: [usize; 17] = [
    16, 17, 33, 34, 36, 37, 74, 75, 80, 87, 88, 93, 100, 101, 106, 111, 112,
];

// Each byte is greater or less by 128, with the digest mended. The places of counts have the table cut short.
#[test]
fn reads_only_what_is_in_order_behind_a_mended_digest(rt: HostRuntime) {
    let rt = &rt;
    let bytes = table_bytes(rt, 7, LAST);
    same(rt, bytes.len(), 146, "its bytes");
    for at in 0..114usize {
        let mut other = turned(rt, &bytes, at, 128);
        let is_read = is_read_mended(rt, &mut other, at);
        same(rt, (at, is_read), (at, FREE.contains(&at)), "by half");
    }
}

// Changes each byte, one after the other, and sees why the table is refused; and the same behind a digest of its own, where the byte isn't
// the digest's. Answers how many of these are read.
fn read_of_changed(rt: &impl Host, bytes: &[u8], bits: u8) -> u32 {
    let mut read = 0u32;
    for at in 0..bytes.len() {
        let mut other = turned(rt, bytes, at, bits);
        let want = Some(wrong_at(&other, at, ReadRefused::Damaged));
        same(rt, refusal_of(rt, &other), want, "a changed byte");
        if at < bytes.len().saturating_sub(32) && is_read_mended(rt, &mut other, at) {
            read = read.saturating_add(1);
        }
    }
    read
}

// How many of 300 tables with one byte drawn anew are read.
fn read_of_drawn(rt: &impl Host, rng: &mut Xoshiro256PlusPlus, bytes: &[u8]) -> u32 {
    assert!(rt; 40 < bytes.len(), "a table");
    let mut read = 0u32;
    for _ in 0..300u16 {
        let at = 8 + (rng.next_u64() % (bytes.len() as u64 - 40)) as usize;
        let mut other = turned(rt, bytes, at, (rng.next_u64() % 256) as u8);
        if is_read_mended(rt, &mut other, at) {
            read = read.saturating_add(1);
        }
    }
    read
}

// Cuts a table at each length, and sees why it is refused.
fn expect_refused_cut(rt: &impl Host, bytes: &[u8]) {
    for length in 0..bytes.len() {
        let want = match length {
            0..=7 => ReadRefused::NoTable,
            _ => ReadRefused::CutShort,
        };
        same(rt, refusal_of(rt, &bytes[..length]), Some(want), "a cut");
    }
}

// A byte of each table is changed; with a digest of their own most of these are out of order, and some are other tables. Each table is cut
// at each length, and goes on behind its end.
#[test]
fn refuses_each_byte_changed_and_each_length_cut(rt: HostRuntime) {
    let rt = &rt;
    let mut rng = Xoshiro256PlusPlus::seed_from_u64(51);
    let (mut changed, mut drawn) = (0u32, 0u32);
    for mut bytes in ring_files(rt) {
        drawn = drawn.saturating_add(read_of_drawn(rt, &mut rng, &bytes));
        for change in [1u8, 128, 255] {
            changed = changed.saturating_add(read_of_changed(rt, &bytes, change));
        }
        expect_refused_cut(rt, &bytes);
        got(rt, bytes.push(0));
        let want = Some(ReadRefused::TooLong);
        same(rt, refusal_of(rt, &bytes), want, "a byte more");
    }
    assert!(rt; 0 < changed && 0 < drawn && drawn < 2700);
}

#[test]
fn refuses_drawn_bytes(rt: HostRuntime) {
    let rt = &rt;
    let mut rng = Xoshiro256PlusPlus::seed_from_u64(50);
    for _ in 0..2000u16 {
        let mut bytes = got(rt, Vec::from_slice(rt.alloc(), b"TZTABL01"));
        for _ in 8..rng.next_u64() % 200 {
            got(rt, bytes.push((rng.next_u64() % 256) as u8));
        }
        let want = wrong_inside(&bytes, ReadRefused::Damaged);
        same(rt, refusal_of(rt, &bytes), Some(want), "drawn");
    }
}

// Run by `./refuse-memory`, each allocation refused in turn. The command `tables` makes and writes tables with each refused.
#[test]
fn reads_a_table_after_a_want_of_memory(rt: HostRuntime) {
    let rt = &rt;
    let bytes = table_bytes(rt, 7, LAST);
    let table = match RouterTable::read(rt.alloc(), &bytes) {
        Ok(table) => table,
        Err(refused) => {
            same(rt, refused, ReadRefused::Memory, "not read");
            read(rt, &bytes)
        }
    };
    let again = again(rt, || table.write(rt.alloc()));
    assert!(rt; again.as_slice() == bytes.as_slice(), "written otherwise");
}
