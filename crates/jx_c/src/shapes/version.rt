// The library's version.
ghost use Rattle.std.specs.Prelude.{◌≡◌};

/// The library's version as one number: 10,000 times its first part, 100 times its second and once its third; 300 is 0.3.0.
#[unsafe(no_mangle)]
pub extern "C" fn jx_version() -> u32
    ensures { result ≡ 300 }
{
    300
}
