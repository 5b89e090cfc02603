//! Documents at the edges of their form, and the texts of every row.

ghost use Rattle.std.specs.Prelude.{◌<◌, ◌^◌, length};

use std::alloc::Global;
use std::process::Abort;
use std::test::Fail;
use tt_io::{MemSink, WriteFault};
use tt_read::{FormFault, FormKind, read, show};

/// A line for each kind of row, at the edges of its numbers, with each operator.
const ROWS: &[u8] = b"osektime 1
round 10000
adjust 500
mode run
var count -2147483648
demand fuel 300 120
task Plan 256
isr CanRx 2 64
isr Speed 3 64 2000
osek Logger 1
osek Starter 2 auto
oisr Timer 1
hook error
hook shutdown
at 900 run activate Wheel 1700 stringent
at 100 run activate Plan 2400 nonstringent
at 2500 limp enable CanRx
start run
rounds 100000
value fuel 0
arrive Speed 999999999999
time 8905
work 1500
take fuel
set count - + count 1 -5
if <= * count 2 != x == y < 1 2147483647
else
repeat 65535
end
out _
switch limp
sync
shutdown
activate Logger
chain Logger
terminate
";

/// Names that are words of the language, comments, and spaces around words.
const LOOSE: &[u8] = b"# a comment
mode   mode

   at 0 at activate if 9 stringent  
 #end
set set - 1 -1
out end
   
";

const TIGHT: &[u8] = b"mode mode\nat 0 at activate if 9 stringent\nset set - 1 -1\nout end\n";

/// Reads a document and shows it: what is shown, the number of rows, and the line of the last.
fn check_shown(
    rt: &impl Abort,
    alloc: Global,
    bytes: &[u8],
    shown: &[u8],
    count: usize,
    last: Option<u32>,
) -> Result<(), Fail>
    requires { length bytes.now < 2 ^ 32 }
{
    let rows = read(alloc, bytes)?;
    assert_eq!(rt; rows.len(), count);
    assert_eq!(rt; rows.as_slice().last().map(|row| row.line), last);
    let mut sink = MemSink::new(alloc, 2000, 100, Vec::new(alloc))?;
    show(&rows, &mut sink)?;
    assert_eq!(rt; sink.as_bytes(), shown);
    Ok(())
}

#[test]
fn shows_what_it_reads(rt: HostRuntime) -> Result<(), Fail> {
    let alloc = rt.alloc();
    check_shown(&rt, alloc, ROWS, ROWS, 36, Some(36))?;
    check_shown(&rt, alloc, LOOSE, TIGHT, 4, Some(7))?;
    let note = b"osektime 1\n# note\n  round   10\n\n";
    check_shown(&rt, alloc, note, b"osektime 1\nround 10\n", 2, Some(3))?;
    check_shown(&rt, alloc, b"", b"", 0, None)
}

#[test]
fn names_the_first_faulty_line_and_its_least_kind(rt: HostRuntime) -> Result<(), Fail> {
    let documents: [(&[u8], u32, FormKind); 15] = [
        (b"osektime 1", 1, FormKind::Cut),
        (b"osektime 1\nfoo\n", 2, FormKind::Row),
        (b"end\nend", 2, FormKind::Cut),
        (b"end\nfoo\n\tend\nend", 2, FormKind::Row),
        (b"# \x7F\nfoo\n", 1, FormKind::Byte),
        (&[b'#'; 200], 1, FormKind::Cut),
        (&[b'#'; 201], 1, FormKind::Long),
        (&[0x1F; 201], 1, FormKind::Byte),
        (b"out + 1\n", 1, FormKind::Row),
        (b"out + 1 2 3\n", 1, FormKind::Row),
        (b"if\n", 1, FormKind::Row),
        (b"osektime 2\n", 1, FormKind::Row),
        (b"round 010\n", 1, FormKind::Row),
        (b"mode 1a\n", 1, FormKind::Row),
        (b"osek A 1 automatic\n", 1, FormKind::Row),
    ];
    for (bytes, line, kind) in documents {
        let fault = FormFault::Form { line, kind };
        assert_eq!(rt; read(rt.alloc(), bytes).err(), Some(fault));
    }
    Ok(())
}

#[test]
fn shows_the_front_where_a_write_fails(rt: HostRuntime) -> Result<(), Fail> {
    let alloc = rt.alloc();
    let rows = read(alloc, b"sync\nend\n")?;
    let mut sink = MemSink::new(alloc, 100, 3, [1].to_vec(alloc)?)?;
    assert_eq!(rt; show(&rows, &mut sink), Err(WriteFault));
    assert_eq!(rt; sink.as_bytes(), b"syn".as_slice());
    Ok(())
}
