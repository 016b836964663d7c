// The commands, each with its arguments after the end.
ghost use Rattle.std.specs.Prelude.{[], ◌∷◌, ◌≡◌, ◌≤◌, length};
ghost use Rattle.drive_token.specs.Tokens.{tokens_in, last, over};
ghost use Rattle.drive_name.specs.Names.{field_of, key_of};
ghost use Rattle.drive_script.specs.Script.{command_of, hex_of};
ghost use Rattle.drive_script.specs.Script.{start_command, send_command, poke_command, fill_command, lend_command, count_command};

use crate::Command;
use drive_token::{cut, digits, is};

// The command of its word and of its arguments. The words go by how many arguments they have: a table of functions would need one type for
// functions of one, two and three arguments, of which some write bytes.
pub fn command(op: &[u8], arguments: Option<&[u8]>, bytes: &mut [u8]) -> Option<Command>
    requires { 2000 ≤ length bytes.old }
    ensures value { result ≡ command_of op.now (tokens_in arguments.entry) }
    ensures bytes_after { bytes.new ≡ over (hex_of (command_of op.now (tokens_in arguments.entry)) (last (tokens_in arguments.entry))) bytes.old }
{
    let Some(rest) = arguments else {
        return no_argument(op);
    };
    let (a, more) = cut(rest);
    let Some(rest) = more else {
        return one_argument(op, a, bytes);
    };
    let (b, more) = cut(rest);
    let Some(rest) = more else {
        return two_arguments(op, a, b, bytes);
    };
    let (c, more) = cut(rest);
    match more {
        None => three_arguments(op, a, b, c),
        Some(_) => None,
    }
}

#[tactic(auto, unfolding(crate::specs::Script::command_of))]
fn no_argument(op: &[u8]) -> Option<Command>
    ensures { result ≡ command_of op.now [] }
{
    is(op, b"ticket").then_some(Command::Ticket)
}

#[tactic(auto, unfolding(crate::specs::Script::command_of))]
fn one_argument(op: &[u8], a: &[u8], bytes: &mut [u8]) -> Option<Command>
    requires { 2000 ≤ length bytes.old }
    ensures value { result ≡ command_of op.now (a.now ∷ []) }
    ensures bytes_after { bytes.new ≡ over (hex_of (command_of op.now (a.now ∷ [])) a.now) bytes.old }
{
    if is(op, b"start") {
        start(a)
    } else if is(op, b"accept") {
        let n = digits::take_hex(a, bytes)?;
        Some(Command::Accept(n))
    } else if is(op, b"receive") {
        let n = digits::take_hex(a, bytes)?;
        Some(Command::Receive(n))
    } else {
        None
    }
}

#[tactic(auto, unfolding(crate::specs::Script::command_of))]
fn two_arguments(op: &[u8], a: &[u8], b: &[u8], bytes: &mut [u8]) -> Option<Command>
    requires { 2000 ≤ length bytes.old }
    ensures value { result ≡ command_of op.now (a.now ∷ b.now ∷ []) }
    ensures bytes_after { bytes.new ≡ over (hex_of (command_of op.now (a.now ∷ b.now ∷ [])) b.now) bytes.old }
{
    if is(op, b"poke") {
        poke(a, b)
    } else if is(op, b"fill") {
        fill(a, b, bytes)
    } else if is(op, b"lend") {
        lend(a, b)
    } else if is(op, b"count") {
        count(a, b)
    } else {
        None
    }
}

#[tactic(auto, unfolding(crate::specs::Script::command_of))]
fn three_arguments(op: &[u8], a: &[u8], b: &[u8], c: &[u8]) -> Option<Command>
    ensures { result ≡ command_of op.now (a.now ∷ b.now ∷ c.now ∷ []) }
{
    if is(op, b"send") { send(a, b, c) } else { None }
}

#[tactic(auto, unfolding(crate::specs::Script::start_command))]
fn start(length: &[u8]) -> Option<Command>
    ensures { result ≡ start_command length.now }
{
    let n = digits::number(length, 70000)?;
    Some(Command::Start(n as usize))
}

#[tactic(auto, unfolding(crate::specs::Script::send_command))]
fn send(length: &[u8], errors: &[u8], info: &[u8]) -> Option<Command>
    ensures { result ≡ send_command length.now errors.now info.now }
{
    let l = digits::number(length, 2000)?;
    let e = digits::number(errors, 255)?;
    let i = digits::number(info, u64::MAX)?;
    Some(Command::Send(l as usize, e as u8, i))
}

#[tactic(auto, unfolding(crate::specs::Script::poke_command))]
fn poke(name: &[u8], token: &[u8]) -> Option<Command>
    ensures { result ≡ poke_command (field_of name.now) token.now }
{
    let f = drive_name::field_named(name)?;
    let v = digits::number(token, drive_name::most(f))?;
    Some(Command::Poke(f, v))
}

#[tactic(auto, unfolding(crate::specs::Script::fill_command))]
fn fill(offset: &[u8], hex: &[u8], bytes: &mut [u8]) -> Option<Command>
    requires { 2000 ≤ length bytes.old }
    ensures value { result ≡ fill_command offset.now hex.now }
    ensures bytes_after { bytes.new ≡ over (hex_of (fill_command offset.now hex.now) hex.now) bytes.old }
{
    let o = digits::offset(offset)?;
    let n = digits::take_hex(hex, bytes)?;
    Some(Command::Fill(o, n))
}

#[tactic(auto, unfolding(crate::specs::Script::lend_command))]
fn lend(store: &[u8], hold: &[u8]) -> Option<Command>
    ensures { result ≡ lend_command store.now hold.now }
{
    let s = digits::number(store, 70000)?;
    let h = digits::number(hold, 2000)?;
    Some(Command::Lend(s as usize, h as usize))
}

// Not one function with poke: there the largest number goes by the field.
#[tactic(auto, unfolding(crate::specs::Script::count_command))]
fn count(name: &[u8], token: &[u8]) -> Option<Command>
    ensures { result ≡ count_command (key_of name.now) token.now }
{
    let k = drive_name::key_named(name)?;
    let v = digits::number(token, 4294967295)?;
    Some(Command::Count(k, v as u32))
}
