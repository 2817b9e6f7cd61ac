// Lists of variables.
ghost use Rattle.std.specs.Prelude.{◌≡◌};
ghost use Rattle.variables.specs.Lists.{has};

// Whether a variable is listed.
pub fn lists(variables: &[u8], variable: u8) -> bool
    ensures { result ≡ has variables.now variable }
{
    // Not contains: it looks at blocks of bytes, and the lists here are of a few.
    variables.iter().any(|listed| *listed == variable)
}
