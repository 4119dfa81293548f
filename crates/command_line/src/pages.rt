// The texts that a program prints of itself.
ghost use Rattle.std.specs.Prelude.{◌≡◌, option_copied, string_bytes};
ghost use Rattle.command_line.specs.Pages.{is_help, asked_page};

/// The texts that a program prints of itself.
#[derive(Clone, Copy, Debug)]
pub struct Pages {
    /// The text for `--help`, or `-h`.
    pub help: &'static str,
    /// The text for `--version`.
    pub version: &'static str,
    /// The text for `--help lines`, or `-h lines`, of a program that has one.
    pub lines: Option<&'static str>,
}

fn is_help(word: &String) -> bool
    ensures { result ≡ is_help (string_bytes word.now) }
{
    word.as_bytes() == b"--help".as_slice() || word.as_bytes() == b"-h".as_slice()
}

/// The page that these words ask for, if they do.
pub fn page_of(pages: &Pages, words: &[String]) -> Option<&'static str>
    ensures { option_copied result ≡ asked_page pages.now words.now }
{
    match words {
        [word] if is_help(word) => Some(pages.help),
        [word] if word.as_bytes() == b"--version".as_slice() => Some(pages.version),
        [word, other] if is_help(word) && other.as_bytes() == b"lines".as_slice() => pages.lines,
        _ => None,
    }
}
