//! Category codes.

ghost use Rattle.std.specs.Prelude.{◌≡◌, ◌≢◌, ℕ};
ghost use Rattle.tx_model.specs.Bare.{bare_category};
ghost use Rattle.tx_scan.specs.Scans.{category_by};

use tx_model::Cat;

/// The category of each byte. *The TeXbook*, chapter 7.
#[derive(Clone, Copy, Debug)]
pub struct Cats(pub [Cat; 256]);

impl Cats {
    /// The category of a byte.
    pub fn of(&self, byte: u8) -> Cat
        ensures { result ≡ category_by self.now byte }
    {
        self.0[byte as usize]
    }

    /// Gives a byte this category, and leaves the others. *The TeXbook*, chapter 7, `\catcode`.
    pub fn set(&mut self, byte: u8, cat: Cat)
        ensures same { category_by self.new byte ≡ cat }
        ensures others { (b : ℕ) → b ≢ byte → category_by self.new b ≡ category_by self.old b }
    {
        self.0[byte as usize] = cat;
    }

    /// The categories of the state BARE: those of plain TeX's beginning, with braces, `$`, `&`, `#`,
    /// `^`, `_` and the tab as plain TeX sets them.
    pub fn bare() -> Self
        ensures { (b : ℕ) → category_by result b ≡ bare_category b }
    {
        let mut cats = [Cat::Other; 256];
        for byte in 0..256 {
            cats[byte] = bare(byte as u8);
        }
        Cats(cats)
    }
}

/// The category of a byte in the state BARE.
fn bare(byte: u8) -> Cat
    ensures { result ≡ bare_category byte }
{
    match byte {
        b'A'..=b'Z' | b'a'..=b'z' => Cat::Letter,
        b'\\' => Cat::Escape,
        b'{' => Cat::Begin,
        b'}' => Cat::End,
        b'$' => Cat::Math,
        b'&' => Cat::Tab,
        b'\r' => Cat::LineEnd,
        b'#' => Cat::Parameter,
        b'^' => Cat::Superscript,
        b'_' => Cat::Subscript,
        0 => Cat::Ignored,
        b' ' | b'\t' => Cat::Space,
        b'%' => Cat::Comment,
        127 => Cat::Invalid,
        _ => Cat::Other,
    }
}
