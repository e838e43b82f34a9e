// Bytes that nobody tested: nothing is read outside them, and what they can't answer is refused by name.
use super::*;

// The packet that the first table sends to the last.
fn packet_of(rt: &impl Host, files: &[Vec<u8>]) -> Packet {
    let to = read(rt, nth(rt, files, 8)).address();
    got(rt, read(rt, nth(rt, files, 0)).launch(&to))
}

// Every call over bytes whose entries are cut: nothing is answered.
fn answers_nothing(rt: &impl Abort, cut: &[u8], packet: &Packet, to: &Address) {
    let (mut out, mut place) = ([7; PACKET_SIZE], [7; ADDRESS_SIZE]);
    let found = [
        hop_bytes(cut, &packet.to_bytes(), &mut out).err(),
        launch_bytes(cut, &to.to_bytes(), &mut out).err(),
        address_bytes(cut, &mut place).err(),
    ];
    same(rt, found, [Some(BytesRefused::NoTable); 3], "in bytes");
    assert!(rt;
        out == [7; PACKET_SIZE] && place == [7; ADDRESS_SIZE],
        "nothing written"
    );
    let none = (figures_in(cut).is_none(), neighbour_in(cut, 0).is_none());
    same(rt, none, (true, true), "no figures and no neighbour");
    let by_value = (hop_in(cut, packet).is_none(), launch_in(cut, to).is_none());
    same(rt, by_value, (true, true), "no hop and no launch");
    assert!(rt; address_in(cut).is_none(), "no address");
}

// The bytes cut at every place before the end of the entries; and counts past the bytes, in place of those of the ports, the entries and
// the members.
#[test]
fn cut_bytes_and_counts_past_the_end_are_refused(rt: HostRuntime) {
    let rt = &rt;
    let files = ring_files(rt);
    let packet = packet_of(rt, &files);
    for file in &files {
        let to = read(rt, file).address();
        let figures = got(rt, figures_in(file).ok_or("no figures"));
        let entries_at = 64 + 2 * figures.ports as usize;
        let members_at = entries_at + 2 + 13 * figures.entries as usize;
        for end in 0..members_at {
            let cut = got(rt, file.get(..end).ok_or("too short"));
            answers_nothing(rt, cut, &packet, &to);
        }
        let mut far = to.copy();
        far.node = 8;
        for (at, is_asked) in [(62, true), (entries_at, true), (members_at, false)] {
            let other = turned(rt, file, at, 255);
            let _answer = launch_in(&other, &far);
            // a hop asks no member
            same(rt, hop_in(&other, &packet).is_none(), is_asked, "a hop");
        }
    }
}

// A place of another length is told before an address of another length. All lengths, and bytes that are no packet and no address, are in
// examples/forward/tests/stays_inside.c.
#[test]
fn looks_at_the_place_first(rt: HostRuntime) {
    let rt = &rt;
    let files = ring_files(rt);
    let packet = packet_of(rt, &files).to_bytes();
    let mut out = [7; PACKET_SIZE];
    let answer = launch_bytes(nth(rt, &files, 0), &packet, &mut out[..42]);
    same(rt, answer, Err(BytesRefused::NoRoom), "a launch");
    assert!(rt; out == [7; PACKET_SIZE], "nothing written");
}
