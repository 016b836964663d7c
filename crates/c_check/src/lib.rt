// The check for programs in Rust or C, which link the archive that `rt lib` writes, out/libc_check.a. A slice goes over as a pointer and a
// length. A table that is handed over is not looked at: the two functions that take one are linked under these names with these signatures.

#![tactic(auto)]

ghost use Rattle.std.specs.Prelude.{◌≡◌, ◌++◌};
ghost use Rattle.crc.specs.Unit.{right, flit_right};
ghost use Rattle.crc.specs.Register.{table};
ghost use Rattle.crc.specs.Seal.{sealed};

#[unsafe(no_mangle)]
pub extern "C" fn crc_right(unit: &[u8]) -> bool
    ensures { result ≡ right unit.now }
{
    crc::right(unit)
}

#[unsafe(no_mangle)]
pub extern "C" fn crc_flit_right(s: &[u8], at: usize) -> bool
    ensures { result ≡ flit_right s.now at }
{
    crc::flit_right(s, at)
}

#[unsafe(no_mangle)]
pub extern "C" fn crc_seal(unit: &mut [u8])
    ensures { unit.new ≡ sealed unit.old }
{
    crc::seal(unit);
}

#[unsafe(no_mangle)]
pub extern "C" fn crc_lay(t: &mut [u64; 256])
    ensures { t.new ≡ table }
{
    *t = crc::laid();
}

#[unsafe(no_mangle)]
pub extern "C" fn crc_right_with(_t: &[u64; 256], unit: &[u8]) -> bool
    ensures { result ≡ right unit.now }
{
    crc::right(unit)
}

#[unsafe(no_mangle)]
pub extern "C" fn crc_right_after(_t: &[u64; 256], held: &[u8], flit: &[u8]) -> bool
    ensures { result ≡ right (held.now ++ flit.now) }
{
    crc::right_after(held, flit)
}
