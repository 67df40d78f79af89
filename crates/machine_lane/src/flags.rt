// The set of volatile locations, as flags.
ghost use Rattle.std.specs.Prelude.{◌≡◌, ◌<◌, length};
ghost use Rattle.file_format.specs.Accepted.{is_volatile};
ghost use Rattle.machine_lane.specs.Lanes.{flags};

// The flags of the volatile locations, from the mask.
pub fn flags_of(mask: u32) -> [bool; 16]
    requires { mask < 65536 }
    ensures { (16 ≡ length result) × (flags result ≡ is_volatile mask) }
{
    let mut flags = [false; 16];
    for (x, flag) in flags.iter_mut().enumerate() {
        *flag = (mask >> x) % 2 == 1;
    }
    flags
}
