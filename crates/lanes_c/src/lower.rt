// Lowering, called from C.
ghost use Rattle.std.specs.Prelude.{◌≡◌};
ghost use Rattle.lanes_answers.specs.Interface.{call_lower1, call_lower2, call_lower3};

// The level 1 sheet at the front of `sheet`; after a refusal `sheet` is as it was.
#[unsafe(no_mangle)]
pub extern "C" fn lanes_lower1(kernel: &[u8], sheet: &mut [u8]) -> u64
    ensures { (result, sheet.new) ≡ call_lower1 kernel.now sheet.old }
{
    lanes::lower::lanes_lower1(kernel, sheet)
}

// The level 2 sheet, likewise.
#[unsafe(no_mangle)]
pub extern "C" fn lanes_lower2(kernel: &[u8], sheet: &mut [u8]) -> u64
    ensures { (result, sheet.new) ≡ call_lower2 kernel.now sheet.old }
{
    lanes::lower::lanes_lower2(kernel, sheet)
}

// The level 3 sheet, likewise.
#[unsafe(no_mangle)]
pub extern "C" fn lanes_lower3(kernel: &[u8], sheet: &mut [u8]) -> u64
    ensures { (result, sheet.new) ≡ call_lower3 kernel.now sheet.old }
{
    lanes::lower::lanes_lower3(kernel, sheet)
}
