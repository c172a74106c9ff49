// Prints what 01 says for a formula's text and a proof: game.qdimacs and game.mrp in the folder that it
// is run in, or two files named as arguments.
#![tactic(auto)]

ghost use Rattle.std.specs.Prelude.{◌≡◌, ◌≤◌, length, [], take, IfOk, IfSome, MatchOption};

use std::env::{Env, FillError};
use std::fs::File;
use std::io::{Read, Write};
use std::{io, str};

// Reads to the end of the input or of buf: how many bytes.
// Kept: the programs read into fixed buffers; read_to_end wants a Vec, and read_exact fails at an input that is shorter.
fn fill(file: &mut File, buf: &mut [u8]) -> io::Result<usize>
    ensures within { IfOk result (λ n. n ≤ length buf.new) }
    ensures taken { IfOk result (λ n. n ≡ length (take n buf.new)) }
{
    let mut done = 0;
    while done < buf.len() {
        let n = file.read(&mut buf[done..])?;
        if n == 0 {
            return Ok(done);
        }
        done += n;
    }
    Ok(done)
}

// The file's bytes in buf, as far as it goes: how many.
fn read_file(rt: &HostRuntime, path: &str, buf: &mut [u8]) -> io::Result<usize>
    ensures within { IfOk result (λ n. n ≤ length buf.new) }
    ensures taken { IfOk result (λ n. n ≡ length (take n buf.new)) }
{
    let mut file = File::open(rt, path)?;
    fill(&mut file, buf)
}

// The file that argument i names where two are given, else the usual one: None where it cannot be read. A name
// that is no path, since it is too long or not UTF-8, names a file that cannot be read.
fn read_named(rt: &HostRuntime, i: usize, usual: &str, buf: &mut [u8]) -> Option<usize>
    ensures within { IfSome result (λ n. n ≤ length buf.new) }
    ensures taken { IfSome result (λ n. n ≡ length (take n buf.new)) }
{
    let mut path = [0u8; 4096];
    if let Err(FillError::NotPresent) = rt.arg(2, &mut path) {
        return read_file(rt, usual, buf).ok();
    }
    let n = rt.arg(i, &mut path).ok()?;
    let name = str::from_utf8(&path[..n]).ok()?;
    read_file(rt, name, buf).ok()
}

// The bytes read, none where the file could not be read.
fn taken(buf: &[u8], n: Option<usize>) -> &[u8]
    requires { IfSome n (λ k. k ≤ length buf.now) }
    ensures { MatchOption n (result.now ≡ []) (λ k. result.now ≡ take k buf.now) }
{
    match n {
        Some(k) => &buf[..k],
        None => &[],
    }
}

// N zero bytes.
fn room<const N: usize>() -> [u8; N]
    ensures { N ≡ length result }
{
    [0; N]
}

// Prints the report of the two files. The text's room is one byte past the longest text, since one that is cut is refused
// all the same, and the proof's is one byte past the longest file that a head can announce.
fn main(rt: HostRuntime) -> io::Result<()> {
    let mut text = room::<65537>();
    let mut proof = room::<524288>();
    let t = read_named(&rt, 1, "game.qdimacs", &mut text);
    let p = read_named(&rt, 2, "game.mrp", &mut proof);
    let mut report = report::room();
    io::writer(&rt).write_all(report::of(taken(&text, t), taken(&proof, p), &mut report))
}
