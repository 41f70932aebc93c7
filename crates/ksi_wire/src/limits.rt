/// How many bytes a line may have before its line feed. The longest is a response: at most 10,000 bytes in hex, and two words.
pub const MOST_LINE: usize = 32_000;
