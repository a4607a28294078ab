// The frames that a pass holds.
ghost use Rattle.std.specs.Prelude.{◌≡◌, ◌<◌, ◌∷◌, [], length};
ghost use Rattle.latch_table.specs.Held.{numbers, position, removed};

/// The numbers of the frames that a pass holds, the last claimed first.
#[derive(Clone, Copy, Debug, Drop)]
pub enum Held {
    None,
    One(u32),
    Two(u32, u32),
    Three(u32, u32, u32),
    Four(u32, u32, u32, u32),
}

impl Held {
    /// How many there are.
    pub fn count(self) -> usize
        ensures { result ≡ length (numbers self) }
    {
        match self {
            Held::None => 0,
            Held::One(_) => 1,
            Held::Two(..) => 2,
            Held::Three(..) => 3,
            Held::Four(..) => 4,
        }
    }

    /// With one more in front.
    pub fn with(self, frame: u32) -> Held
        requires { length (numbers self) < 4 }
        ensures { numbers result ≡ frame ∷ numbers self }
    {
        match self {
            Held::None => Held::One(frame),
            Held::One(a) => Held::Two(frame, a),
            Held::Two(a, b) => Held::Three(frame, a, b),
            Held::Three(a, b, c) => Held::Four(frame, a, b, c),
            Held::Four(..) => unreachable!(),
        }
    }

    /// How many are in front of this one.
    pub fn position(self, frame: u32) -> usize
        ensures { result ≡ position frame (numbers self) }
    {
        match self {
            Held::None => 0,
            Held::One(a) => usize::from(a != frame),
            Held::Two(a, b) => two(frame, a, b),
            Held::Three(a, b, c) => three(frame, a, b, c),
            Held::Four(a, b, c, d) => {
                if a == frame {
                    0
                } else {
                    1 + three(frame, b, c, d)
                }
            }
        }
    }

    /// Without this one.
    pub fn without(self, frame: u32) -> Held
        ensures { numbers result ≡ removed frame (numbers self) }
    {
        match self {
            Held::None => Held::None,
            Held::One(a) => without_one(frame, a),
            Held::Two(a, b) => without_two(frame, a, b),
            Held::Three(a, b, c) => without_three(frame, a, b, c),
            Held::Four(a, b, c, d) => without_four(frame, a, b, c, d),
        }
    }
}

/// The place of a frame among two; 2 where it is not there.
fn two(frame: u32, a: u32, b: u32) -> usize
    ensures { result ≡ position frame (a ∷ b ∷ []) }
{
    if a == frame {
        0
    } else if b == frame {
        1
    } else {
        2
    }
}

/// The place of a frame among three; 3 where it is not there.
fn three(frame: u32, a: u32, b: u32, c: u32) -> usize
    ensures { result ≡ position frame (a ∷ b ∷ c ∷ []) }
{
    if a == frame { 0 } else { 1 + two(frame, b, c) }
}

/// What is left of one without this frame; all, where it is not there.
fn without_one(frame: u32, a: u32) -> Held
    ensures { numbers result ≡ removed frame (a ∷ []) }
{
    if a == frame { Held::None } else { Held::One(a) }
}

/// What is left of two without this frame; all, where it is not there.
fn without_two(frame: u32, a: u32, b: u32) -> Held
    ensures { numbers result ≡ removed frame (a ∷ b ∷ []) }
{
    if a == frame {
        return Held::One(b);
    }
    if b == frame {
        Held::One(a)
    } else {
        Held::Two(a, b)
    }
}

/// What is left of three without this frame; all, where it is not there.
fn without_three(frame: u32, a: u32, b: u32, c: u32) -> Held
    ensures { numbers result ≡ removed frame (a ∷ b ∷ c ∷ []) }
{
    if a == frame {
        return Held::Two(b, c);
    }
    if b == frame {
        return Held::Two(a, c);
    }
    if c == frame {
        Held::Two(a, b)
    } else {
        Held::Three(a, b, c)
    }
}

/// What is left of four without this frame; all, where it is not there.
fn without_four(frame: u32, a: u32, b: u32, c: u32, d: u32) -> Held
    ensures { numbers result ≡ removed frame (a ∷ b ∷ c ∷ d ∷ []) }
{
    if a == frame {
        return Held::Three(b, c, d);
    }
    if b == frame {
        return Held::Three(a, c, d);
    }
    if c == frame {
        return Held::Three(a, b, d);
    }
    if d == frame {
        Held::Three(a, b, c)
    } else {
        Held::Four(a, b, c, d)
    }
}
