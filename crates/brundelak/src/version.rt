// Which version the archive is of.
ghost use Rattle.std.specs.Prelude.{◌≡◌};
ghost use Rattle.brundelak.specs.rules.Version.{version};

// The version as one number: that of the header has to be the same. It refuses nothing.
#[unsafe(no_mangle)]
pub extern "C" fn brundelak_version() -> u32
    ensures { result ≡ version }
{
    512
}
