// A graph, a command of each block, and bytes that break off, in each of the three prints.
use listings::printing::{Dot, Hexadecimal, Named};
use std::test::Fail;

// R()=A();
const GRAPH: &[u8] = b"\x01\x00\x07\x00\x00\x01\x0B\x00\x01\xFF\xFF\xFF\xFF\x00\x00\x00\x00";

// A command of each block, by its byte.
const BLOCKS: &[u8] =
    b"\x01\xFE\x02\x07\x02\x09\x10\x11\x03\x02\x04\x06\x04\x08\x06\x0C\x05\x02\x03\x06\x07\x06\x01\x02\x05\
\x07\x01\x08\x0A\x08\x09\x0A\x0B\x09\x14\x13\x17\x0A\x0B\x0C\x0B\x03\x0C\x04\x05\x06\xFF\x03\x01\x00\x00";

// The last command lacks operands.
const BROKEN_OFF: &[u8] = b"\x01\x00\x07\x00\x00\x01\x0B\x00";

#[test]
fn commands_by_name(rt: HostRuntime) -> Result<(), Fail> {
    let text = format!(in rt.alloc(); "{}", Named(GRAPH))?;
    assert_eq!(rt;
        text.as_str(),
        "ROOT 0\nLOAD 0 0 1\nWRITE 0 1 255 255 255 255 0 0 0\n"
    );
    Ok(())
}

#[test]
fn blocks_by_name(rt: HostRuntime) -> Result<(), Fail> {
    let text = format!(in rt.alloc(); "{}", Named(BLOCKS))?;
    let expected = "ROOT 254
SCAN 7 2 9 16 17
MEET 2 4 6
JOIN 8 6 12
ALIGN 2 3 6 7
REPEAT 1 2 5
LOAD 1 8 10
MUL 9 10 11
ADD 20 19 23
SUM 11 12
WRITE 3 12 4 5 6 255 3 1 0
";
    assert_eq!(rt; text.as_str(), expected);
    Ok(())
}

#[test]
fn bytes_by_command(rt: HostRuntime) -> Result<(), Fail> {
    let text = format!(in rt.alloc(); "{}", Hexadecimal(GRAPH))?;
    assert_eq!(rt;
        text.as_str(),
        "01 00 \n07 00 00 01 \n0B 00 01 FF FF FF FF 00 00 00 \n00 \n"
    );
    Ok(())
}

#[test]
fn picture(rt: HostRuntime) -> Result<(), Fail> {
    let text = format!(in rt.alloc(); "{}", Dot(GRAPH))?;
    let expected = "digraph commands {
    c0 [shape=box, label=\"ROOT 0\"];
    c0 -> s0;
    c2 [shape=box, label=\"LOAD 0 0 1\"];
    s0 -> c2;
    c2 -> s1;
    c6 [shape=box, label=\"WRITE 0 1 255 255 255 255 0 0 0\"];
    s1 -> c6;
}
";
    assert_eq!(rt; text.as_str(), expected);
    Ok(())
}

const BLOCKS_IN_DOT: &str = "digraph commands {
    c0 [shape=box, label=\"ROOT 254\"];
    c0 -> s254;
    c2 [shape=box, label=\"SCAN 7 2 9 16 17\"];
    s9 -> c2;
    c2 -> s16;
    c2 -> s17;
    c8 [shape=box, label=\"MEET 2 4 6\"];
    s2 -> c8;
    s4 -> c8;
    c8 -> s6;
    c12 [shape=box, label=\"JOIN 8 6 12\"];
    s8 -> c12;
    s6 -> c12;
    c12 -> s12;
    c16 [shape=box, label=\"ALIGN 2 3 6 7\"];
    s2 -> c16;
    s3 -> c16;
    s6 -> c16;
    c16 -> s7;
    c21 [shape=box, label=\"REPEAT 1 2 5\"];
    s1 -> c21;
    s2 -> c21;
    c21 -> s5;
    c25 [shape=box, label=\"LOAD 1 8 10\"];
    s8 -> c25;
    c25 -> s10;
    c29 [shape=box, label=\"MUL 9 10 11\"];
    s9 -> c29;
    s10 -> c29;
    c29 -> s11;
    c33 [shape=box, label=\"ADD 20 19 23\"];
    s20 -> c33;
    s19 -> c33;
    c33 -> s23;
    c37 [shape=box, label=\"SUM 11 12\"];
    s11 -> c37;
    c37 -> s12;
    c40 [shape=box, label=\"WRITE 3 12 4 5 6 255 3 1 0\"];
    s12 -> c40;
    s4 -> c40;
    s5 -> c40;
    s6 -> c40;
}
";

// What a command reads leads to it, in the order of its operands; what it makes leads away.
#[test]
fn picture_of_blocks(rt: HostRuntime) -> Result<(), Fail> {
    let text = format!(in rt.alloc(); "{}", Dot(BLOCKS))?;
    assert_eq!(rt; text.as_str(), BLOCKS_IN_DOT);
    Ok(())
}

// The names and the picture end with the last whole command; the bytes behind it are shown as they are.
#[test]
fn bytes_that_break_off(rt: HostRuntime) -> Result<(), Fail> {
    let names = format!(in rt.alloc(); "{}", Named(BROKEN_OFF))?;
    assert_eq!(rt; names.as_str(), "ROOT 0\nLOAD 0 0 1\n");
    let bytes = format!(in rt.alloc(); "{}", Hexadecimal(BROKEN_OFF))?;
    assert_eq!(rt; bytes.as_str(), "01 00 \n07 00 00 01 \n0B 00 \n");
    let picture = format!(in rt.alloc(); "{}", Dot(&BROKEN_OFF[0..1]))?;
    assert_eq!(rt; picture.as_str(), "digraph commands {\n}\n");
    Ok(())
}
