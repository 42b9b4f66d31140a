// Numbers as bytes, the lowest byte first. Each call names a place of the format, and none answers where it ends: bytes and place are no type.
ghost use Rattle.std.specs.Prelude.{◌≡◌, ◌+◌, ◌*◌, ◌≤◌, length, map, take, drop};
ghost use Rattle.std.specs.List.{flat_map, range_with_len};
ghost use Rattle.lent_bytes.specs.Placed.{placed};
ghost use Rattle.image.specs.Numbers.{le32, bytes32};

use std::array;

// The bytes of a number, from a place on.
pub(crate) fn field<const N: usize>(bytes: &[u8], at: usize) -> [u8; N]
    requires { at + N ≤ length bytes.now }
    ensures { result ≡ take N (drop at bytes.now) }
{
    let mut field = [0; N];
    field.copy_from_slice(&bytes[at..at + N]);
    field
}

pub(crate) fn put_field<const N: usize>(bytes: &mut [u8], at: usize, field: [u8; N])
    requires { at + N ≤ length bytes.old }
    ensures { bytes.new ≡ placed bytes.old at field.entry }
{
    bytes[at..at + N].copy_from_slice(&field);
}

// Numbers of four bytes, one after the other, from a place on.
pub(crate) fn numbers<const N: usize>(bytes: &[u8], at: usize) -> [u32; N]
    requires { at + 4 * N ≤ length bytes.now }
    ensures { result ≡ map (λ k. le32 bytes.now (at + 4 * k)) (range_with_len 0 N) }
{
    array::from_fn(|k| u32::from_le_bytes(field(bytes, at + 4 * k)))
}

pub(crate) fn put_numbers<const N: usize>(bytes: &mut [u8], at: usize, numbers: [u32; N])
    requires { at + 4 * N ≤ length bytes.old }
    ensures { bytes.new ≡ placed bytes.old at (flat_map bytes32 numbers.entry) }
{
    for (k, number) in numbers.iter().enumerate() {
        put_field(bytes, at + 4 * k, number.to_le_bytes());
    }
}
