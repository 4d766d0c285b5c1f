//! The arguments of the program, and what is wrong with those that it refuses.
ghost use Rattle.std.specs.Prelude.{◌≤◌, ◌<◌, IfSome};

use thiserror::Error;

/// A picture is at most so wide, and so high.
pub const MOST_PIXELS: u32 = 16384;

/// At most so many threads draw.
pub const MOST_THREADS: u32 = 64;

/// What the program is to draw, and how.
#[derive(Clone, Copy)]
pub struct Arguments {
    pub width: u32,
    pub height: u32,
    /// None if `-j` is not there.
    pub threads: Option<u32>,
    /// Whether `--progress` is there.
    pub progress: bool,
    ghost is_wide: { 0 < width },
    ghost is_high: { 0 < height },
    ghost width_limit: { width ≤ 16384 },
    ghost height_limit: { height ≤ 16384 },
}

/// What is wrong with the arguments.
#[derive(Debug, Clone, Copy, Error)]
pub enum BadArguments {
    /// The width or the height is not there.
    #[error("the width and the height are missing")]
    Missing,
    /// A word follows the height that is none of the options.
    #[error("there is an argument that is no option")]
    Unknown,
    /// An argument is not UTF-8.
    #[error("an argument is not text")]
    NotText,
    /// The width or the height is not a number from 1 to `MOST_PIXELS`.
    #[error("the width and the height have to be whole numbers from 1 to 16384")]
    Size,
    /// What follows `-j` is not a number from 1 to `MOST_THREADS`, or is not there.
    #[error("-j has to be followed by a whole number from 1 to 64")]
    Threads,
}

// The options that were read so far.
#[derive(Clone, Copy)]
struct Options {
    threads: Option<u32>,
    progress: bool,
    // Whether the word before was `-j`.
    counts_next: bool,
}

impl Options {
    // Reads one word more behind the height.
    fn add(&mut self, word: &str) -> Result<(), BadArguments> {
        if self.counts_next {
            let Some(threads) = number(word, MOST_THREADS) else {
                return Err(BadArguments::Threads);
            };
            self.threads = Some(threads);
            self.counts_next = false;
            return Ok(());
        }
        match word {
            "-j" => self.counts_next = true,
            "--progress" => self.progress = true,
            _ => return Err(BadArguments::Unknown),
        }
        Ok(())
    }
}

// A width, a height or a number of threads: a whole number from 1 to the limit.
fn number(text: &str, limit: u32) -> Option<u32>
    ensures low { IfSome result (λ number. 0 < number) }
    ensures high { IfSome result (λ number. number ≤ limit) }
{
    let Ok(number) = text.parse::<u32>() else {
        return None;
    };
    if number == 0 || number > limit {
        return None;
    }
    Some(number)
}

// Reads the words that follow the height.
fn read_options(words: &[String]) -> Result<Options, BadArguments> {
    let mut options = Options {
        threads: None,
        progress: false,
        counts_next: false,
    };
    for word in words {
        options.add(word.as_str())?;
    }
    if options.counts_next {
        return Err(BadArguments::Threads);
    }
    Ok(options)
}

/// Reads the arguments of a picture, without the name of the program. The later one of two `-j` counts.
///
/// # Errors
///
/// `BadArguments`, for what is wrong first.
pub fn read(words: &[String]) -> Result<Arguments, BadArguments> {
    let [width, height, others @ ..] = words else {
        return Err(BadArguments::Missing);
    };
    let Some(width) = number(width.as_str(), MOST_PIXELS) else {
        return Err(BadArguments::Size);
    };
    let Some(height) = number(height.as_str(), MOST_PIXELS) else {
        return Err(BadArguments::Size);
    };
    let options = read_options(others)?;
    Ok(Arguments {
        width,
        height,
        threads: options.threads,
        progress: options.progress,
    })
}
