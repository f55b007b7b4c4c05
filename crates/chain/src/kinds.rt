// The methods and faces, by their numbers. The two conversions have cases of their own, and no impl may be written by a macro.
ghost use Rattle.std.specs.Prelude.{◌≡◌, true, MatchResult};
ghost use Rattle.chain.specs.Flux.{outside};
ghost use Rattle.chain.specs.Private.{method_number, face_number};

// No such method or face.
#[derive(Clone, Copy)]
pub(crate) struct Unknown;

#[derive(Clone, Copy, PartialEq, Eq)]
pub(crate) enum Method {
    // A.11
    ByDiameter = 1,
    // A.12
    ByHeat = 2,
    Smoky = 3,
}

impl TryFrom<u8> for Method {
    type Error = Unknown;

    fn try_from(n: u8) -> Result<Method, Unknown>
        ensures { MatchResult result (λ m. method_number m ≡ n) (λ _. outside 1 3 n ≡ true) }
    {
        match n {
            1 => Ok(Method::ByDiameter),
            2 => Ok(Method::ByHeat),
            3 => Ok(Method::Smoky),
            _ => Err(Unknown),
        }
    }
}

#[derive(Clone, Copy, PartialEq, Eq)]
pub(crate) enum Face {
    Vertical = 1,
    Horizontal = 2,
    Tilted = 3,
}

impl TryFrom<u8> for Face {
    type Error = Unknown;

    fn try_from(n: u8) -> Result<Face, Unknown>
        ensures { MatchResult result (λ f. face_number f ≡ n) (λ _. outside 1 3 n ≡ true) }
    {
        match n {
            1 => Ok(Face::Vertical),
            2 => Ok(Face::Horizontal),
            3 => Ok(Face::Tilted),
            _ => Err(Unknown),
        }
    }
}
