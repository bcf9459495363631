//! Printing a scene.

ghost use Rattle.std.specs.Prelude.{◌≡◌, ◌++◌, OnOk, IfOk};
ghost use Rattle.std.specs.List.{flat_map};
ghost use Rattle.scene_text.specs.declared.line.Line.TheVariants as line;
ghost use Rattle.pg_words.specs.Lines.{line_text};
ghost use Rattle.scene_text.specs.Headers.{declared_text, head_line};
ghost use Rattle.scene_text.specs.Calls.{call_line};
ghost use Rattle.scene_text.specs.Printing.{named_text, at_text, mapping_text, mapped_text, script_text};
ghost use Rattle.scene_text.specs.Texts.{printed_line, printed, MeetsGrammar, IsScene};

use crate::head::Head;
use crate::scripts::Calls;
use crate::whole::Scene;
use bitflags::Flags;
use cs_policy::{Call, ProcFlags, Prot};
use pg_words::{
    add_access, add_address, add_data, add_hex, add_name, add_number, add_prot, add_share,
    add_word, put,
};
use std::alloc::{AllocError, Global};

/// The word for the flags with which a process starts.
fn declared_word(flags: ProcFlags) -> &'static str
    ensures { result.now ≡ declared_text flags }
{
    let hard = flags.contains(ProcFlags::HARD);
    let kill = flags.contains(ProcFlags::KILL);
    let enforce = flags.contains(ProcFlags::ENFORCEMENT);
    match (hard, kill, enforce) {
        (false, false, false) => "none",
        (true, false, false) => "hard",
        (false, true, false) => "kill",
        (true, true, false) => "hard+kill",
        (false, false, true) => "enforce",
        (true, false, true) => "hard+enforce",
        (false, true, true) => "kill+enforce",
        (true, true, true) => "hard+kill+enforce",
    }
}

/// A header line without its end.
fn put_head(alloc: Global, text: &mut Vec<u8>, head: &Head) -> Result<(), AllocError>
    ensures { OnOk result (text.new.items ≡ text.old.items ++ line_text (head_line head.now)) }
{
    match head {
        Head::PageSize { bytes } => {
            put(text, b"pagesize")?;
            add_number(text, u64::from(*bytes))
        }
        Head::Adhoc => put(text, b"policy adhoc"),
        Head::Resident { pages } => {
            put(text, b"resident")?;
            add_number(text, u64::from(*pages))
        }
        Head::File { path } => {
            put(text, b"file")?;
            add_word(text, path.bytes())
        }
        Head::Raw { path, off, len } => {
            put(text, b"raw")?;
            add_word(text, path.bytes())?;
            add_number(text, *off)?;
            add_number(text, *len)
        }
        Head::Static { path } => {
            put(text, b"static")?;
            add_word(text, path.bytes())
        }
        Head::Admit { cdhash } => {
            put(text, b"admit")?;
            add_hex(alloc, text, cdhash.as_slice())
        }
        Head::Cache { path } => {
            put(text, b"cache")?;
            add_word(text, path.bytes())
        }
        Head::Process { flags } => {
            put(text, b"process")?;
            add_word(text, declared_word(*flags).as_bytes())
        }
        Head::Fail { file, call } => {
            put(text, b"fail")?;
            add_name(text, b'f', *file)?;
            add_number(text, *call)
        }
    }
}

/// Where a process maps a file, behind the word for it.
fn put_mapping(
    alloc: Global,
    text: &mut Vec<u8>,
    pid: u32,
    addr: u64,
    file: u32,
) -> Result<(), AllocError>
    ensures { OnOk result (text.new.items ≡ text.old.items ++ mapping_text pid addr file) }
{
    put(text, b"map")?;
    add_name(text, b'p', pid)?;
    add_address(alloc, text, addr)?;
    add_name(text, b'f', file)
}

/// The pages that are mapped, and how.
fn put_mapped(
    text: &mut Vec<u8>,
    first: u64,
    pages: u64,
    prot: Prot,
    shared: bool,
) -> Result<(), AllocError>
    ensures { OnOk result (text.new.items ≡ text.old.items ++ mapped_text first pages prot shared) }
{
    add_number(text, first)?;
    add_number(text, pages)?;
    add_prot(text, prot)?;
    add_share(text, shared)
}

/// A call that names a process and an address, up to there.
fn put_at(
    alloc: Global,
    text: &mut Vec<u8>,
    word: &[u8],
    pid: u32,
    addr: u64,
) -> Result<(), AllocError>
    ensures { OnOk result (text.new.items ≡ text.old.items ++ at_text word.now pid addr) }
{
    put(text, word)?;
    add_name(text, b'p', pid)?;
    add_address(alloc, text, addr)
}

/// A call that names a process, a file or a trust cache, up to there.
fn put_named(text: &mut Vec<u8>, word: &[u8], letter: u8, number: u32) -> Result<(), AllocError>
    ensures { OnOk result (text.new.items ≡ text.old.items ++ named_text word.now letter number) }
{
    put(text, word)?;
    add_name(text, letter, number)
}

/// A call line without its end.
fn put_call(alloc: Global, text: &mut Vec<u8>, call: &Call) -> Result<(), AllocError>
    ensures { OnOk result (text.new.items ≡ text.old.items ++ line_text (call_line call.now)) }
{
    match call {
        Call::Spawn { pid } => put_named(text, b"spawn", b'p', *pid),
        Call::Map {
            pid,
            addr,
            file,
            first,
            pages,
            prot,
            shared,
        } => {
            put_mapping(alloc, text, *pid, *addr, *file)?;
            put_mapped(text, *first, *pages, *prot, *shared)
        }
        Call::Unmap { pid, addr } => put_at(alloc, text, b"unmap", *pid, *addr),
        Call::Attach { file, slice } => {
            put_named(text, b"attach", b'f', *file)?;
            add_number(text, u64::from(*slice))
        }
        Call::LoadTrust { cache } => put_named(text, b"loadtrust", b'c', *cache),
        Call::Fault { pid, addr, access } => {
            put_at(alloc, text, b"fault", *pid, *addr)?;
            add_access(text, *access)
        }
        Call::Store { pid, addr, bytes } => {
            put_at(alloc, text, b"store", *pid, *addr)?;
            add_hex(alloc, text, bytes.bytes())
        }
        Call::Load { pid, addr, count } => {
            put_at(alloc, text, b"load", *pid, *addr)?;
            add_number(text, u64::from(*count))
        }
        Call::Fetch { pid, addr, count } => {
            put_at(alloc, text, b"fetch", *pid, *addr)?;
            add_number(text, u64::from(*count))
        }
        Call::Write { file, at, piece } => {
            put_named(text, b"write", b'f', *file)?;
            add_number(text, *at)?;
            add_data(alloc, text, piece)
        }
        Call::Evict { file, page } => {
            put_named(text, b"evict", b'f', *file)?;
            add_number(text, *page)
        }
        Call::Debug { pid } => put_named(text, b"debug", b'p', *pid),
        Call::Exit { pid } => put_named(text, b"exit", b'p', *pid),
    }
}

/// Header lines.
fn put_heads(alloc: Global, text: &mut Vec<u8>, heads: &[Head]) -> Result<(), AllocError>
    ensures { OnOk result (text.new.items ≡
        text.old.items ++ flat_map (λ head. printed_line (line.Head head)) heads.now) }
{
    for head in heads {
        put_head(alloc, text, head)?;
        put(text, b"\n")?;
    }
    Ok(())
}

/// The calls of a script.
fn put_calls(alloc: Global, text: &mut Vec<u8>, calls: &[Call]) -> Result<(), AllocError>
    ensures { OnOk result (text.new.items ≡
        text.old.items ++ flat_map (λ call. printed_line (line.Call call)) calls.now) }
{
    for call in calls {
        put_call(alloc, text, call)?;
        put(text, b"\n")?;
    }
    Ok(())
}

/// A script.
fn put_script(alloc: Global, text: &mut Vec<u8>, calls: &[Call]) -> Result<(), AllocError>
    ensures { OnOk result (text.new.items ≡ text.old.items ++ script_text calls.now) }
{
    put(text, b"script\n")?;
    put_calls(alloc, text, calls)
}

/// Scripts.
fn put_scripts(alloc: Global, text: &mut Vec<u8>, scripts: &[Calls]) -> Result<(), AllocError>
    ensures { OnOk result (text.new.items ≡ text.old.items ++ flat_map script_text scripts.now) }
{
    for script in scripts {
        put_script(alloc, text, script.items())?;
    }
    Ok(())
}

/// The text of a scene: `scene 1`, its header lines and its scripts, each line in its one form and ended by LF. Where
/// each line meets the grammar behind those above it, `scene` reads the text as this scene. The only error is want of
/// memory.
pub fn print(alloc: Global, scene: &Scene) -> Result<Vec<u8>, AllocError>
    ensures text { IfOk result (λ text. text.items ≡ printed scene.now) }
    ensures read_again { MeetsGrammar scene.now → IfOk result (λ text. IsScene text.items scene.now) }
{
    let mut text = Vec::from_slice(alloc, b"scene 1\n")?;
    put_heads(alloc, &mut text, scene.head.items())?;
    put_scripts(alloc, &mut text, scene.scripts.items())?;
    Ok(text)
}
