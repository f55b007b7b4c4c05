// The fill of a sheet for a host in C or Rust: the static library of `sheet`.
#![tactic(auto)]

ghost use Rattle.std.specs.Prelude.{◌≡◌};
ghost use Rattle.sheet.specs.Fill.{fill_of};

// Writes ten bytes per target of the sheet and returns 0; or writes nothing and returns the number of the refusal.
#[unsafe(no_mangle)]
pub extern "C" fn fill(sheet: &[u8], out: &mut [u8]) -> u8
    ensures { (result ≡ (fill_of sheet.now out.old).number) × (out.new ≡ (fill_of sheet.now out.old).elements) }
{
    match sheet::fill::fill(sheet, out) {
        Ok(()) => 0,
        Err(why) => u8::from(why),
    }
}
