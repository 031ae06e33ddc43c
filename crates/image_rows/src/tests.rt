//! Worked images, and damaged ones with the first fault that the rules give.
use crate::{reread, rewrite};
use image::ImageFault::{Bytes, Code, Net, Table};
use image::{ImageFault, decode};
use std::alloc::Global;
use std::test::Fail;

// One task of one unit, fed by a sensor.
const ONE: &[u8] = &[
    0x4d, 0x41, 0x52, 0x53, 0x01, 0x01, 0x02, 0x01, 0x00, 0x07, 0x00, 0x00, 0x00, 0x06, 0x01, 0x03,
    0x69, 0x6e, 0x63, 0x00, 0x01, 0x00, 0x00, 0x00, 0x07, 0x00, 0x02, 0x00, 0x00, 0x00, 0x02, 0x00,
    0x00, 0x01, 0x01, 0x00, 0x01, 0x01, 0x00, 0x00, 0x00, 0x05, 0x01, 0x00, 0x00, 0x00, 0x00, 0x00,
    0x00, 0x01, 0x00, 0x00, 0x00, 0x01, 0x05, 0x02, 0x00, 0x00, 0x00, 0x00, 0x02, 0x01, 0x00, 0x00,
    0x00, 0x01, 0x1b, 0x00, 0x00, 0x00, 0x00, 0x00, 0x01, 0x01, 0x74, 0x00, 0x00, 0x00, 0x06, 0x00,
    0x00, 0x00, 0x06, 0x00, 0x00, 0x00, 0x01, 0x01, 0x73, 0x00, 0x00, 0x00, 0x01, 0x01, 0x76, 0x00,
    0x00, 0x00, 0x01, 0x00, 0x00, 0x00, 0x00, 0x00, 0x00, 0x00, 0x00, 0x00, 0x00, 0x00, 0x01, 0x00,
    0x00,
];

// Two tasks of two units, joined by an edge.
const TWO: &[u8] = &[
    0x4d, 0x41, 0x52, 0x53, 0x01, 0x02, 0x02, 0x01, 0x00, 0x07, 0x00, 0x00, 0x00, 0x0c, 0x02, 0x01,
    0x61, 0x00, 0x01, 0x00, 0x00, 0x00, 0x07, 0x00, 0x02, 0x00, 0x00, 0x00, 0x02, 0x00, 0x00, 0x01,
    0x01, 0x00, 0x01, 0x01, 0x00, 0x00, 0x00, 0x05, 0x01, 0x00, 0x00, 0x00, 0x00, 0x00, 0x00, 0x01,
    0x00, 0x00, 0x00, 0x01, 0x05, 0x02, 0x00, 0x00, 0x00, 0x00, 0x02, 0x01, 0x00, 0x00, 0x00, 0x01,
    0x1b, 0x00, 0x00, 0x00, 0x00, 0x00, 0x01, 0x62, 0x00, 0x02, 0x00, 0x00, 0x00, 0x07, 0x00, 0x02,
    0x00, 0x00, 0x00, 0x02, 0x00, 0x00, 0x01, 0x01, 0x00, 0x01, 0x01, 0x00, 0x00, 0x00, 0x05, 0x01,
    0x00, 0x00, 0x00, 0x00, 0x00, 0x00, 0x01, 0x00, 0x00, 0x00, 0x01, 0x05, 0x02, 0x00, 0x00, 0x00,
    0x00, 0x02, 0x01, 0x00, 0x00, 0x00, 0x01, 0x1b, 0x00, 0x00, 0x00, 0x00, 0x00, 0x01, 0x01, 0x74,
    0x00, 0x00, 0x00, 0x18, 0x00, 0x00, 0x00, 0x18, 0x00, 0x01, 0x00, 0x00, 0x01, 0x00, 0x00, 0x01,
    0x01, 0x73, 0x00, 0x00, 0x00, 0x01, 0x01, 0x76, 0x01, 0x00, 0x00, 0x02, 0x00, 0x00, 0x00, 0x00,
    0x00, 0x00, 0x00, 0x00, 0x00, 0x00, 0x00, 0x01, 0x01, 0x00, 0x00, 0x01, 0x00, 0x00, 0x00, 0x12,
    0x00, 0x00, 0x00, 0x13, 0x00, 0x01, 0x00, 0x00, 0x00, 0x00, 0x00, 0x00, 0x01, 0x00,
];

// Whether the bytes are the image, with one job for each task, of tasks with these bounds and of so many messages; and
// are the bytes of that image.
fn stays(alloc: Global, bytes: &[u8], maxts: &[u32], messages: usize) -> Result<bool, ImageFault> {
    if bytes.len() > 190 {
        return Ok(false);
    }
    let image = decode(alloc, bytes)?;
    let again = reread(alloc, &image)?;
    let plant = again.plant();
    let new = rewrite(alloc, bytes)?;
    Ok(
        plant.maxts.as_slice() == maxts
            && plant.tables.jobs.len() == maxts.len()
            && plant.tables.messages.len() == messages
            && new.as_slice() == bytes,
    )
}

#[test]
fn worked_images(rt: HostRuntime) -> Result<(), Fail> {
    let alloc = rt.alloc();
    assert_eq!(rt; stays(alloc, ONE, &[7], 0), Ok(true));
    assert_eq!(rt; stays(alloc, TWO, &[7, 7], 1), Ok(true));
    Ok(())
}

// The first fault of so many of the bytes, with another byte at each of these places; None where there is none.
fn fault_of(
    alloc: Global,
    bytes: &[u8],
    length: usize,
    changes: &[(usize, u8)],
) -> Result<Option<ImageFault>, Fail> {
    let mut image = Vec::from_slice(alloc, bytes)?;
    image.truncate(length);
    for (at, byte) in changes {
        if let Some(place) = image.get_mut(*at) {
            *place = *byte;
        }
    }
    if image.len() > 190 {
        return Ok(None);
    }
    Ok(rewrite(alloc, &image).err())
}

#[test]
fn damaged_images(rt: HostRuntime) -> Result<(), Fail> {
    let alloc = rt.alloc();
    for (bytes, first, second, fault) in [
        (ONE, (0, 0x4e), (0, 0x4e), Bytes(0)),
        (ONE, (4, 0x03), (0, 0x4d), Bytes(4)),
        (ONE, (20, 0x02), (0, 0x4d), Net),
        (ONE, (42, 0x1c), (0, 0x4d), Bytes(42)),
        (ONE, (59, 0x01), (0, 0x4d), Bytes(56)),
        (ONE, (61, 0x02), (0, 0x4d), Code(0)),
        (ONE, (106, 0x01), (0, 0x4d), Table(3)),
        (ONE, (106, 0x06), (110, 0x07), Table(6)),
        (ONE, (24, 0x08), (0, 0x4d), Table(3)),
        (ONE, (5, 0x00), (0, 0x4d), Bytes(5)),
        (ONE, (5, 0x09), (0, 0x4d), Bytes(5)),
        (ONE, (6, 0x01), (0, 0x4d), Bytes(6)),
        (ONE, (6, 0x41), (0, 0x4d), Bytes(6)),
        (ONE, (7, 0x00), (0, 0x4d), Bytes(7)),
        (ONE, (9, 0x00), (0, 0x4d), Bytes(8)),
        (ONE, (10, 0x01), (0, 0x4d), Bytes(10)),
        (ONE, (14, 0x00), (0, 0x4d), Bytes(14)),
        (ONE, (14, 0x41), (0, 0x4d), Bytes(14)),
        (ONE, (15, 0x00), (0, 0x4d), Bytes(15)),
        (ONE, (15, 0x20), (0, 0x4d), Bytes(15)),
        (ONE, (16, 0x31), (0, 0x4d), Bytes(15)),
        (ONE, (19, 0x01), (0, 0x4d), Net),
        (ONE, (20, 0x00), (0, 0x4d), Net),
        (ONE, (21, 0x80), (0, 0x4d), Bytes(21)),
        (ONE, (24, 0x00), (0, 0x4d), Bytes(21)),
        (ONE, (25, 0x10), (0, 0x4d), Bytes(25)),
        (ONE, (27, 0x01), (28, 0x01), Bytes(27)),
        (ONE, (31, 0x03), (0, 0x4d), Bytes(31)),
        (ONE, (33, 0x00), (0, 0x4d), Bytes(32)),
        (ONE, (33, 0x11), (0, 0x4d), Net),
        (ONE, (37, 0x00), (0, 0x4d), Bytes(37)),
        (ONE, (37, 0x12), (0, 0x4d), Bytes(37)),
        (ONE, (39, 0x05), (0, 0x4d), Code(0)),
        (ONE, (41, 0x00), (0, 0x4d), Bytes(40)),
        (ONE, (43, 0x41), (0, 0x4d), Bytes(43)),
        (ONE, (43, 0x40), (0, 0x4d), Code(0)),
        (ONE, (44, 0x01), (0, 0x4d), Bytes(44)),
        (ONE, (47, 0x02), (0, 0x4d), Code(0)),
        (ONE, (72, 0x00), (0, 0x4d), Bytes(72)),
        (ONE, (78, 0x00), (0, 0x4d), Bytes(75)),
        (ONE, (82, 0x07), (0, 0x4d), Net),
        (ONE, (83, 0x04), (84, 0x01), Bytes(83)),
        (ONE, (89, 0x01), (0, 0x4d), Net),
        (ONE, (90, 0x01), (0, 0x4d), Net),
        (ONE, (94, 0x31), (0, 0x4d), Bytes(93)),
        (ONE, (97, 0x02), (98, 0x01), Bytes(97)),
        (ONE, (99, 0x01), (0, 0x4d), Table(1)),
        (ONE, (101, 0x01), (0, 0x4d), Table(1)),
        (ONE, (102, 0x01), (0, 0x4d), Table(2)),
        (ONE, (110, 0x02), (0, 0x4d), Table(3)),
        (TWO, (59, 0x02), (114, 0x02), Code(0)),
        (TWO, (114, 0x02), (0, 0x4d), Code(1)),
        (TWO, (175, 0x11), (179, 0x12), Table(7)),
        (TWO, (186, 0x01), (0, 0x4d), Table(7)),
        (TWO, (188, 0x00), (0, 0x4d), Table(7)),
        (TWO, (189, 0x01), (0, 0x4d), Table(8)),
    ] {
        let changes = [first, second];
        let got = fault_of(alloc, bytes, 190, &changes)?;
        assert_eq!(rt; got, Some(fault), "{first:?}");
    }
    Ok(())
}

// Where the fields of the image of two tasks begin, by the table of fields.
const FIELDS: [usize; 100] = [
    0, 4, 5, 6, 7, 8, 10, // head and cluster
    14, 15, 17, 18, 19, 23, 25, 27, 29, 30, 32, 33, 35, 36, 38, // a, its cells and its start
    40, 41, 42, 46, 47, 48, 52, 53, 54, 58, 59, 60, 64, 65, 66, // its instructions
    70, 72, 73, 74, 78, 80, 82, 84, 85, 87, 88, 90, 91, 93, // b, its cells and its start
    95, 96, 97, 101, 102, 103, 107, 108, 109, 113, 114, 115, 119, 120, 121, // its instructions
    125, 126, 128, 132, 136, 138, 139, 140, 141, // transactions and edges
    142, 144, 146, 147, 148, 150, 152, 153, // sensors and actuators
    154, 156, 157, 159, 160, 164, 168, 169, 171, 172, 176, // jobs
    180, 182, 184, 186, 187, 189, // messages
];

// Each front of an image breaks off within a field, the last that it begins.
#[test]
fn fronts_of_an_image(rt: HostRuntime) -> Result<(), Fail> {
    let alloc = rt.alloc();
    let mut field = 0;
    for length in 0..TWO.len() {
        if FIELDS.contains(&length) {
            field = length;
        }
        let fault = fault_of(alloc, TWO, length, &[])?;
        let breaks_off = matches!(fault, Some(Bytes(at)) if at as usize == field);
        assert!(rt; breaks_off, "{length}");
    }
    Ok(())
}

// Bytes that may stand in place of one of the first image's, of four that are tried in each place: a letter of a name; other
// cycles of a tick, places and counters; an operand, or another instruction, of the same heights; a longer period, and a
// sooner deadline.
const TAKEN: [(usize, u8); 35] = [
    (8, 0x01),
    (9, 0x41),
    (9, 0xff),
    (16, 0x41),
    (17, 0x41),
    (18, 0x41),
    (24, 0x01),
    (25, 0x01),
    (26, 0x41),
    (26, 0xff),
    (27, 0x01),
    (28, 0x01),
    (28, 0x41),
    (28, 0xff),
    (42, 0x00),
    (47, 0x01),
    (48, 0x01),
    (50, 0x01),
    (50, 0x41),
    (50, 0xff),
    (51, 0x01),
    (51, 0x41),
    (51, 0xff),
    (52, 0x01),
    (52, 0x41),
    (52, 0xff),
    (53, 0x00),
    (53, 0x41),
    (53, 0xff),
    (65, 0x00),
    (74, 0x41),
    (77, 0xff),
    (82, 0x01),
    (88, 0x41),
    (94, 0x41),
];

#[test]
fn each_byte_of_an_image(rt: HostRuntime) -> Result<(), Fail> {
    let alloc = rt.alloc();
    for (at, old) in ONE.iter().enumerate() {
        for byte in [0x00, 0x01, 0x41, 0xff] {
            let fault = fault_of(alloc, ONE, 113, &[(at, byte)])?;
            let taken = *old == byte || TAKEN.contains(&(at, byte));
            assert_eq!(rt; fault.is_none(), taken, "{at} {byte}");
        }
    }
    Ok(())
}
