// The check of a descriptor set for the boot code, which is C: include/flandurvi_descriptors.h declares it, and `rt lib` in this folder
// proves it and writes the archive. The rules are those of `descriptors`.
#![tactic(auto)]

ghost use Rattle.std.specs.Prelude.{◌≡◌};
ghost use Rattle.descriptors.specs.Set.{read_set, fault_of};

// 0x00, or the set's first refusal.
#[unsafe(no_mangle)]
pub extern "C" fn flandurvi_descriptors_check(set: &[u8]) -> u32
    ensures { result ≡ (fault_of (read_set set.now)).code }
{
    descriptors::flandurvi_descriptors_check(set)
}
