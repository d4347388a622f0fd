// The store's image in bytes: definitions and their theorems, and words written one after the other.
#![tactic(auto)]

ghost use Rattle.std.specs.Prelude.{◌≡◌, ◌+◌, ◌*◌, ◌≤◌, length};
ghost use Rattle.words.specs.Parts.{placed};
ghost use Rattle.image.specs.Image.{bytes_of};
ghost use Rattle.image.specs.Claims.{ImageClaims};
ghost use Rattle.image.specs.Demand3OnBytes.{DemandOnBytes};

// The claims of the image, and demand 3 on lent bytes. The contract is what is claimed, so that the gate fails without the proofs.
pub fn claims()
    ensures { ImageClaims × DemandOnBytes }
{}

// Words at `at`, one after the other.
pub fn write_words<const WORDS: usize>(s: &mut [u8], at: usize, ws: [u64; WORDS])
    requires { at + 8 * WORDS ≤ length s.old }
    ensures { s.new ≡ placed at (bytes_of ws.entry) s.old }
{
    for (k, w) in ws.iter().enumerate() {
        words::write_u64(s, at + 8 * k, *w);
    }
}
