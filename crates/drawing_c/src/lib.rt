// The groups of a sheet for a host in C or Rust: the static library of `drawing`.
#![tactic(auto)]

ghost use Rattle.std.specs.Prelude.{◌≡◌};
ghost use Rattle.drawing.specs.Lent.{fill_groups_of};

// Writes three floats per target of the sheet and returns 0; or writes nothing and returns the number of the refusal.
#[unsafe(no_mangle)]
pub extern "C" fn fill_groups(sheet: &[u8], out: &mut [f64]) -> u8
    ensures { (result ≡ (fill_groups_of sheet.now out.old).number) × (out.new ≡ (fill_groups_of sheet.now out.old).elements) }
{
    match drawing::lent::fill_groups(sheet, out) {
        Ok(()) => 0,
        Err(why) => u8::from(why),
    }
}
