ghost use Rattle.std.specs.Prelude.{◌≡◌, ◌<◌, ◌≤◌, ◌+◌, ℕ};
ghost use Rattle.dt_pages.specs.Reading.{addresses};
ghost use Rattle.dt_pages.specs.Image.{Image, look_up};

/// What a table is read by: the words of an image, one at a time.
///
/// A value of it is seen as its image. Reading a word leaves the image as it is, and costs what the value says: the
/// number `cost` counts it, and `kept` tells what else a value keeps while it is read.
pub trait Words {
    /// What one word costs at most.
    const COST: u32;

    ghost COST: { ℕ };

    ghost image: { Self → Image };

    ghost cost: { Self → ℕ };

    ghost kept: { Self → Self → Type 0 };

    /// The word at the address, or 0 where none is set.
    fn word(&mut self, at: u32) -> u64
        requires { at < addresses }
        ensures value { result ≡ look_up (image self.old) at }
        ensures image { image self.new ≡ image self.old }
        ensures cost { cost self.new ≤ cost self.old + COST }
        ensures kept { kept self.old self.new };

    ghost kept_itself: { (words : Self) → kept words words };

    ghost kept_chains: { (first second third : Self) → kept first second → kept second third → kept first third };
}
