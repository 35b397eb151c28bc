// Lists a capture: standard input to standard output, the first 1,073,741,824 bytes and no more. It takes no argument.
// Where a read or a write fails it says why on standard error, and writes no totals.
// What the operating system answers is handed on, as a parameter or in a result, so that what follows from it has a contract: of a read how many
// bytes it gave, or nothing where it failed.
// The lent buffers are parameters one by one: in a struct each contract would say `self.old.store` for `store.old`, and a read fills one of them while the others rest.

#![tactic(auto)]

ghost use Rattle.std.specs.Prelude.{◌≡◌, ◌<◌};
ghost use Rattle.std.specs.Result.{result_ok};
ghost use Rattle.listing.specs.Piece.{left};
ghost use Rattle.listing.specs.Within.{Inside};
ghost use Rattle.list.specs.List.{Says, part_of, Parts, Pieces, Handles, Turns, goes_on, at_limit, All, Closes, Prints, Program};

use listing::{Listed, Listing};
use refusal::Refusal;
use std::env::{Env, FillError};
use std::io;
use std::io::Read;

// What a read fills, a receiver's store, and what texts are written from.
type Buffer = [u8; 262144];

type Store = [u8; 4110];

type Text = [u8; 65536];

// What a turn leaves, a read whose bytes were listed: the listing then, and how many bytes the read gave.
#[derive(Clone, Copy)]
struct Turn {
    next: Listing,
    read: usize,
}

// What a read or a write gave. Says why where it failed.
fn heed<T>(rt: &impl Eprint, call: &str, answer: io::Result<T>) -> Option<T>
    ensures { result ≡ result_ok answer }
{
    answer
        .inspect_err(|e| {
            let _ = eprintln!(rt; "list: {call}: {e}");
        })
        .ok()
}

// Writes the text that a call left at the front of its buffer, where it was not refused.
fn write_text(
    rt: &(impl Print + Eprint),
    text: &[u8],
    written: Result<usize, Refusal>,
) -> Option<()>
    requires { Inside written text.now }
    ensures { Says written result }
{
    let n = written.ok()?;
    heed(rt, "write", rt.write_all(&text[..n]))
}

// Hands on the answer of `list`, where its text was written.
fn part_of(listed: Listed, written: Option<()>) -> Option<Listed>
    ensures { result ≡ part_of written listed }
{
    written.map(|()| listed)
}

// Lists as much of a piece as the buffer has room for, and writes the text.
fn list_part(
    rt: &(impl Print + Eprint),
    l: Listing,
    store: &mut [u8],
    piece: &[u8],
    out: &mut [u8],
) -> Option<Listed>
    ensures { Parts l store.old piece.now out.old result store.new out.new }
{
    let listed = l.list(store, piece, out);
    let written = write_text(rt, out, listed.written);
    part_of(listed, written)
}

// Lists a whole piece, part by part.
fn list_piece(
    rt: &(impl Print + Eprint),
    l: Listing,
    store: &mut [u8],
    piece: &[u8],
    out: &mut [u8],
) -> Option<Listing>
    ensures { Pieces l store.old piece.now result store.new }
{
    let mut now = l;
    let mut rest = piece;
    while !rest.is_empty() {
        let part = list_part(rt, now, store, rest, out)?;
        let is_stuck = part.taken == 0;
        if is_stuck {
            return None;
        }
        now = part.next;
        rest = &rest[part.taken..];
    }
    Some(now)
}

// Lists what a read gave, which stands at the front of the buffer.
fn list_got(
    rt: &(impl Print + Eprint),
    l: Listing,
    read: Option<usize>,
    buffer: &[u8],
    store: &mut [u8],
    out: &mut [u8],
) -> Option<Turn>
    ensures { Handles read buffer.now l store.old result store.new }
{
    let read = read?;
    let bytes = &buffer[..read.min(buffer.len())];
    let next = list_piece(rt, l, store, bytes, out)?;
    Some(Turn { next, read })
}

// Reads once, no more than is left, and lists what came. It asks for one byte at least, so that none means the end of the input.
fn read_turn(
    rt: &(impl Print + Eprint),
    input: &mut impl Read,
    l: Listing,
    buffer: &mut Buffer,
    store: &mut [u8],
    out: &mut [u8],
) -> Option<Turn>
    requires { 0 < left l }
    ensures { Turns buffer.new l store.old result store.new }
{
    let most = (l.left() as usize).min(buffer.len());
    let read = heed(rt, "read", input.read(&mut buffer[..most]));
    list_got(rt, l, read, buffer, store, out)
}

// Whether there is more to read after a turn.
fn goes_on(turn: Turn) -> bool
    ensures { result ≡ goes_on turn }
{
    0 < turn.read && 0 < turn.next.left()
}

// Reads and lists until the end of the input, the limit or a failure. Each turn that goes on has read a byte at least, so that less is left.
fn list_all(
    rt: &(impl Print + Eprint),
    input: &mut impl Read,
    buffer: &mut Buffer,
    store: &mut [u8],
    out: &mut [u8],
) -> Option<Turn>
    ensures { All store.old result store.new }
{
    let mut now = Listing::new();
    loop {
        let turn = read_turn(rt, input, now, buffer, store, out)?;
        let is_last = !goes_on(turn);
        if is_last {
            return Some(turn);
        }
        now = turn.next;
    }
}

// Writes the totals, where nothing failed.
fn close(rt: &(impl Print + Eprint), turn: Option<Turn>, out: &mut [u8]) -> Option<Turn>
    ensures { Closes turn out.old result out.new }
{
    let turn = turn?;
    let written = turn.next.close(out);
    write_text(rt, out, written)?;
    Some(turn)
}

// Lists the input, and closes the listing where nothing failed.
fn list_input(
    rt: &(impl Print + Eprint),
    input: &mut impl Read,
    buffer: &mut Buffer,
    store: &mut Store,
    out: &mut Text,
) -> Option<Turn>
    ensures { Prints store.old result store.new out.new }
{
    let turn = list_all(rt, input, buffer, store, out);
    close(rt, turn, out)
}

// Whether the listing is whole and ends at the limit.
fn is_at_limit(turn: Option<Turn>) -> bool
    ensures { result ≡ at_limit turn }
{
    turn.is_some_and(|turn| turn.next.left() == 0)
}

// Lists the input, where there is no argument beside the program's name. Whether the listing is whole and ends at the limit.
fn run(
    rt: &(impl Print + Eprint),
    input: &mut impl Read,
    arguments: usize,
    buffer: &mut Buffer,
    store: &mut Store,
    out: &mut Text,
) -> bool
    ensures { Program arguments store.old out.old result store.new out.new }
{
    if 1 < arguments {
        let _ = eprintln!(rt;
            "list: takes no argument: it reads a capture from standard input and writes its listing to standard output"
        );
        return false;
    }
    is_at_limit(list_input(rt, input, buffer, store, out))
}

// Says that the input goes on past the limit, where it does.
fn tell_rest(rt: &impl Eprint, input: &mut impl Read) {
    let mut byte = [0u8; 1];
    if let Ok(1) = input.read(&mut byte) {
        let _ = eprintln!(rt; "list: only the first 1073741824 bytes are listed");
    }
}

// How many arguments there are, the program's name among them.
fn count_arguments(rt: &impl Env) -> usize {
    (0..usize::MAX)
        .find(|&i| matches!(rt.arg(i, &mut []), Err(FillError::NotPresent)))
        .unwrap_or(usize::MAX)
}

fn main(rt: HostRuntime) {
    let mut input = rt.stdin();
    let mut buffer: Buffer = [0; 262144];
    let mut store: Store = [0; 4110];
    let mut out: Text = [0; 65536];
    let arguments = count_arguments(&rt);
    if run(
        &rt,
        &mut input,
        arguments,
        &mut buffer,
        &mut store,
        &mut out,
    ) {
        tell_rest(&rt, &mut input);
    }
}
