// What is read of readers, as a text: each line between brackets, `>` for a longer one, `.` for the end, `!` for an error.
ghost use Rattle.std.specs.Prelude.{◌≡◌, IfOk, IfSome, length};
ghost use Rattle.input_lines.specs.Lines.{lines_in};

use super::*;

// A reader that gives at most so many bytes a call, and fails once, behind so many calls.
#[derive(Drop)]
struct Pieces<'a> {
    rest: &'a [u8],
    size: usize,
    calls: u64,
    kind: ErrorKind,
}

impl Read for Pieces<'_> {
    fn read(&mut self, buf: &mut [u8]) -> io::Result<usize> {
        if self.calls == 0 {
            self.calls = u64::MAX;
            return Err(io::Error::from(self.kind));
        }
        self.calls -= 1;
        let count = self.size.min(buf.len()).min(self.rest.len());
        let (front, rest) = self.rest.split_at(count);
        buf[..count].copy_from_slice(front);
        self.rest = rest;
        Ok(count)
    }
}

// No call that fails.
const WHOLE: (u64, ErrorKind) = (u64::MAX, ErrorKind::Other);

// Pieces of so many bytes, behind a buffer of so many; and behind how many calls one fails, and how.
fn buffered<'a>(
    rt: &impl Host,
    rest: &'a [u8],
    (capacity, size): (usize, usize),
    (calls, kind): (u64, ErrorKind),
) -> BufReader<Pieces<'a>> {
    let pieces = Pieces {
        rest,
        size,
        calls,
        kind,
    };
    got(rt, BufReader::with_capacity(rt.alloc(), capacity, pieces))
}

// What is read of a reader, up to its end or an error.
fn told<R: BufRead>(rt: &impl Host, reader: &mut R) -> Vec<u8> {
    let (mut text, mut line) = (Vec::new(rt.alloc()), Vec::new(rt.alloc()));
    for _ in 0..1000u16 {
        let next = next_line(reader, &mut line);
        assert!(rt; line.len() <= LONGEST_LINE, "no more than a line");
        let (parts, is_last): ([&[u8]; 3], bool) = match &next {
            Ok(NextLine::Line) => ([b"[", &line, b"]"], false),
            Ok(NextLine::LongerLine) => ([b">", b"", b""], false),
            Ok(NextLine::End) => ([b".", b"", b""], true),
            Err(_) => ([b"!", b"", b""], true),
        };
        for part in parts {
            got(rt, text.reserve(part.len()));
            got(rt, text.extend_from_slice(part));
        }
        if is_last {
            return text;
        }
    }
    panic!(rt; "more lines than there are");
}

// Sees what is read of bytes: as they are, and behind buffers of these capacities in pieces of these sizes.
fn expect(rt: &impl Host, bytes: &[u8], want: &[u8], (capacities, sizes): (&[usize], &[usize])) {
    let mut whole = bytes;
    assert!(rt; told(rt, &mut whole).as_slice() == want, "the whole");
    for (capacity, size) in capacities.iter().zip(sizes.iter()) {
        let text = told(rt, &mut buffered(rt, bytes, (*capacity, *size), WHOLE));
        assert!(rt; text.as_slice() == want, "pieces");
    }
}

// Bytes, and what is read of them.
const ROWS: [(&[u8], &[u8]); 17] = [
    (b"", b"."),
    (b"tables\n", b"[tables]."),
    (b"tables", b"[tables]."),
    (b"tables\nhop", b"[tables][hop]."),
    (b"tables\nhop\n", b"[tables][hop]."),
    (b"tables\n\nhop\n", b"[tables][][hop]."),
    (b"\n", b"[]."),
    (b"\n\n", b"[][]."),
    (b"\n\na", b"[][][a]."),
    (b"a\n\n\nb\n\n", b"[a][][][b][]."),
    (b"tables\r\nhop\r\n", b"[tables\r][hop\r]."),
    (b"\r", b"[\r]."),
    (b"a\rb\n", b"[a\rb]."),
    (b"\0\n\0\0", b"[\0][\0\0]."),
    (b"\xff\x80\n\xc3", b"[\xff\x80][\xc3]."),
    (b" a \n\tb", b"[ a ][\tb]."),
    (b"\x0b\x0c\n\x8a", b"[\x0b\x0c][\x8a]."),
];

// How many lines a reader has left: a loop over lines, whose contract says how many there were.
fn counted<R: BufRead>(reader: &mut R, line: &mut Vec<u8>) -> io::Result<usize>
    ensures { IfOk result (λ count. IfSome (R.remaining reader.old) (λ xs. count ≡ length (lines_in xs))) }
{
    for count in 0..usize::MAX {
        match next_line(reader, line)? {
            NextLine::Line | NextLine::LongerLine => {}
            NextLine::End => return Ok(count),
        }
    }
    Err(io::Error::from(ErrorKind::TimedOut))
}

// And counts the lines.
#[test]
fn reads_each_ending(rt: HostRuntime) {
    let rt = &rt;
    let mut line = Vec::new(rt.alloc());
    for (bytes, want) in ROWS {
        let (capacities, sizes) = ([1, 2, 2, 3, 8192, 8192, 8192], [1, 1, 2, 2, 1, 5, 8192]);
        expect(rt, bytes, want, (&capacities, &sizes));
        let count = counted(&mut buffered(rt, bytes, (3, 2), WHOLE), &mut line).ok();
        let lines = want.iter().filter(|byte| **byte == b'[').count();
        same(rt, count, Some(lines), "as many");
    }
}

// The same by a plain split, where no line is longer than one may be.
fn split(alloc: Global, bytes: &[u8]) -> Result<Vec<u8>, AllocError> {
    let mut text = Vec::new(alloc);
    let mut within = false;
    for byte in bytes {
        if !within {
            text.push(b'[')?;
        }
        within = *byte != b'\n';
        text.push(if within { *byte } else { b']' })?;
    }
    let end: &[u8] = if within { b"]." } else { b"." };
    text.extend_from_slice(end)?;
    Ok(text)
}

// Drawn bytes: line feeds, carriage returns, zeros and letters.
#[test]
fn reads_what_a_plain_split_gives(rt: HostRuntime) {
    let rt = &rt;
    let mut rng = Xoshiro256PlusPlus::seed_from_u64(61);
    for _ in 0..300u16 {
        let mut bytes = Vec::new(rt.alloc());
        for _ in 0..rng.next_u64() % 40 {
            let byte = match rng.next_u64() % 5 {
                0 => b'\n',
                1 => b'\r',
                2 => b'\0',
                3 => b'a',
                _ => b'b',
            };
            got(rt, bytes.push(byte));
        }
        let want = got(rt, split(rt.alloc(), &bytes));
        let capacity = 1 + (rng.next_u64() % 12) as usize;
        let size = 1 + (rng.next_u64() % 9) as usize;
        expect(rt, &bytes, &want, (&[capacity], &[size]));
    }
}

// These bytes, so many letters, and then these bytes, in room that is enough.
fn long(rt: &impl Host, before: &[u8], count: usize, behind: &[u8]) -> Vec<u8> {
    let room = count.saturating_add(70_100);
    let mut bytes = again(rt, || Vec::with_capacity(rt.alloc(), room));
    got(rt, bytes.extend_from_slice(before));
    got(rt, bytes.resize(before.len().saturating_add(count), b'x'));
    got(rt, bytes.extend_from_slice(behind));
    bytes
}

const LONG_SIZES: (&[usize], &[usize]) = (
    &[1, 3, 4096, 8192, 65_537, 100_000],
    &[1, 2, 4096, 8191, 65_537, 70_000],
);

// The numbers of letters in longer lines than one may be.
const LONGER: [usize; 4] = [65_537, 65_538, 131_072, 200_000];

// How many letters a line begins with, and what stands behind them. What is read: the letters behind a bracket or nothing of them, and
// then this. A carriage return counts as a byte of the line.
const LONG: [(&[usize], &[u8], &[u8], &[u8]); 9] = [
    (&[65_535, 65_536], b"\nhop\n", b"[", b"][hop]."),
    (&[65_535, 65_536], b"\n", b"[", b"]."),
    (&[65_535, 65_536], b"", b"[", b"]."),
    (&[65_535], b"\r\nhop", b"[", b"\r][hop]."),
    (&[65_536], b"\r\nhop", b"", b">[hop]."),
    (&LONGER, b"\nhop\n", b"", b">[hop]."),
    (&LONGER, b"\n\nhop", b"", b">[][hop]."),
    (&LONGER, b"\n", b"", b">."),
    (&LONGER, b"", b"", b">."),
];

#[test]
fn reads_lines_as_long_as_one_may_be_and_leaves_longer_ones(rt: HostRuntime) {
    let rt = &rt;
    for (counts, behind, bracket, told_behind) in &LONG {
        for count in *counts {
            let bytes = long(rt, b"", *count, behind);
            let letters = if bracket.is_empty() { 0 } else { *count };
            let want = long(rt, bracket, letters, told_behind);
            expect(rt, &bytes, &want, LONG_SIZES);
        }
    }
}

// A longer line behind another, and a line behind both.
#[test]
fn leaves_each_of_two_longer_lines(rt: HostRuntime) {
    let rt = &rt;
    let bytes = long(rt, &long(rt, b"", 70_000, b"\n"), 65_537, b"\nhop\n");
    expect(rt, &bytes, b">>[hop].", LONG_SIZES);
}

// Sees what is read of bytes where the call behind so many fails, of those at which a byte or the end is read; and that all is read where it
// was only interrupted.
fn expect_failed(rt: &impl Host, bytes: &[u8], calls: u64, want: &[u8], whole: &[u8]) {
    for (kind, want) in [(ErrorKind::Other, want), (ErrorKind::Interrupted, whole)] {
        let text = told(rt, &mut buffered(rt, bytes, (4, 1), (calls, kind)));
        assert!(rt; text.as_slice() == want, "behind {calls} calls");
    }
}

// Within a longer line the error comes while its rest is read, and nothing is given of it.
#[test]
fn tells_the_error_of_each_call(rt: HostRuntime) {
    let rt = &rt;
    let whole = b"[ab][][c\r][d].".as_slice();
    for (first, last, want) in [
        (0u64, 2u64, b"!".as_slice()),
        (3, 3, b"[ab]!".as_slice()),
        (4, 6, b"[ab][]!".as_slice()),
        (7, 8, b"[ab][][c\r]!".as_slice()),
        (9, 9, b"[ab][][c\r][d]!".as_slice()),
        (10, 11, whole),
    ] {
        for calls in first..=last {
            expect_failed(rt, b"ab\n\nc\r\nd", calls, want, whole);
        }
    }
    let longer = long(rt, b"", 65_540, b"\nhop");
    for (calls, want) in [
        (0u64, b"!".as_slice()),
        (65_536, b"!".as_slice()),
        (65_537, b"!".as_slice()),
        (65_540, b"!".as_slice()),
        (65_541, b">!".as_slice()),
        (65_545, b">[hop]!".as_slice()),
        (65_546, b">[hop].".as_slice()),
    ] {
        expect_failed(rt, &longer, calls, want, b">[hop].");
    }
}

// Run by `./refuse-memory`, each allocation refused in turn: a longer line takes no memory at all, and neither does an empty one. That
// another line takes some is in its backup of a live service.
#[test]
fn leaves_a_longer_line_without_memory(rt: HostRuntime) {
    let rt = &rt;
    let bytes = long(rt, b"", 65_537, b"\n\nhop");
    let (mut line, mut left) = (Vec::new(rt.alloc()), bytes.as_slice());
    for want in [NextLine::LongerLine, NextLine::Line] {
        let next = next_line(&mut left, &mut line);
        same(rt, (got(rt, next), line.len()), (want, 0), "a line");
    }
    assert!(rt; left == b"hop".as_slice(), "what is behind them");
}
