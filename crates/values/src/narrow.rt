// The narrow integers at 64 bits. Each has a function of its own, since a parameter is known to fit its type.
ghost use Rattle.std.specs.Prelude.{◌≡◌};

pub fn from_i8(z: i8) -> i64
    ensures { result ≡ z }
{
    i64::from(z) // of 8 bits
}

pub fn from_i16(z: i16) -> i64
    ensures { result ≡ z }
{
    i64::from(z) // of 16 bits
}

pub fn from_i32(z: i32) -> i64
    ensures { result ≡ z }
{
    i64::from(z) // of 32 bits
}
