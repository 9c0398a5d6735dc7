// Numbers of 32 bits, least significant byte first.
ghost use Rattle.std.specs.Prelude.{◌≡◌, length};
ghost use Rattle.wire.specs.Format.{number_bytes};

#[tactic(auto, using(wire::proofs::RecordLaws::number_bytes_is))]
pub(crate) fn put_number(four: &mut [u8], x: u32)
    requires { length four.old ≡ 4 }
    ensures { four.new ≡ number_bytes x }
{
    four.copy_from_slice(&x.to_le_bytes());
}
