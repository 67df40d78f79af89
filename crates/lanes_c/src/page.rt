// The pages of a kernel, called from C.
ghost use Rattle.std.specs.Prelude.{◌≡◌};
ghost use Rattle.lanes_answers.specs.Interface.{call_page};

// The pages of the level 2 sheet at the front of `page`; after a refusal `page` is as it was.
#[unsafe(no_mangle)]
pub extern "C" fn lanes_page(kernel: &[u8], page: &mut [u8]) -> u64
    ensures { (result, page.new) ≡ call_page kernel.now page.old }
{
    lanes::page::lanes_page(kernel, page)
}
