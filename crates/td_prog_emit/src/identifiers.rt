//! Names of parameters and members in C.

ghost use Rattle.std.specs.Prelude.{◌≡◌, ◌++◌, IfOk};
ghost use Rattle.std.specs.List.{list_any};
ghost use Rattle.std.specs.Str.{bytes_eq};
ghost use Rattle.td_prog_text.specs.Names as names;

use std::alloc::{AllocError, Global};

// The same as `words_of_c`.
static WORDS: [&[u8]; 115] = [
    b"auto",
    b"break",
    b"case",
    b"char",
    b"const",
    b"continue",
    b"default",
    b"do",
    b"double",
    b"else",
    b"enum",
    b"extern",
    b"float",
    b"for",
    b"goto",
    b"if",
    b"inline",
    b"int",
    b"long",
    b"register",
    b"restrict",
    b"return",
    b"short",
    b"signed",
    b"sizeof",
    b"static",
    b"struct",
    b"switch",
    b"typedef",
    b"union",
    b"unsigned",
    b"void",
    b"volatile",
    b"while",
    b"alignas",
    b"alignof",
    b"bool",
    b"constexpr",
    b"false",
    b"nullptr",
    b"static_assert",
    b"thread_local",
    b"true",
    b"typeof",
    b"typeof_unqual",
    b"asm",
    b"fortran",
    b"and",
    b"and_eq",
    b"bitand",
    b"bitor",
    b"catch",
    b"class",
    b"co_await",
    b"co_return",
    b"co_yield",
    b"compl",
    b"concept",
    b"const_cast",
    b"consteval",
    b"constinit",
    b"decltype",
    b"delete",
    b"dynamic_cast",
    b"explicit",
    b"export",
    b"final",
    b"friend",
    b"import",
    b"module",
    b"mutable",
    b"namespace",
    b"new",
    b"noexcept",
    b"not",
    b"not_eq",
    b"operator",
    b"or",
    b"or_eq",
    b"override",
    b"private",
    b"protected",
    b"public",
    b"reinterpret_cast",
    b"requires",
    b"static_cast",
    b"template",
    b"this",
    b"throw",
    b"try",
    b"typeid",
    b"typename",
    b"using",
    b"virtual",
    b"xor",
    b"xor_eq",
    b"NULL",
    b"EOF",
    b"I",
    b"errno",
    b"assert",
    b"stdin",
    b"stdout",
    b"stderr",
    b"offsetof",
    b"linux",
    b"unix",
    b"i386",
    b"mips",
    b"sparc",
    b"sun",
    b"vax",
    b"words",
    b"length",
    b"outcome",
];

/// Whether two names are the same bytes.
pub fn is_equal(one: &[u8], other: &[u8]) -> bool
    ensures { result ≡ bytes_eq one.now other.now }
{
    one == other
}

fn is_listed(words: &[&[u8]], name: &[u8]) -> bool
    ensures { result ≡ list_any (λ w. bytes_eq w.now name.now) words.now }
{
    words.iter().any(|word| is_equal(*word, name))
}

fn is_word(name: &[u8]) -> bool
    ensures { result ≡ names.is_one_of names.words_of_c name.now }
{
    is_listed(&WORDS, name)
}

fn is_capital(byte: u8) -> bool
    ensures { result ≡ names.is_capital byte }
{
    (48 <= byte && byte <= 57) || (65 <= byte && byte <= 90)
}

fn is_error(name: &[u8]) -> bool
    ensures { result ≡ names.is_error name.now }
{
    match name {
        [first, second, ..] => *first == 69 && is_capital(*second),
        _ => false,
    }
}

fn is_taken(name: &[u8]) -> bool
    ensures { result ≡ names.is_taken name.now }
{
    is_word(name)
        || name.starts_with(b"td_")
        || name.starts_with(b"TD_")
        || name.ends_with(b"_t")
        || name.starts_with(b"INT")
        || name.starts_with(b"UINT")
        || name.starts_with(b"PTRDIFF_")
        || name.starts_with(b"SIZE_")
        || name.starts_with(b"WCHAR_")
        || name.starts_with(b"WINT_")
        || name.starts_with(b"SIG")
        || is_error(name)
}

// Without `_` at its end.
fn trimmed(name: &[u8]) -> &[u8]
    ensures { result.now ≡ names.trimmed name.now }
{
    let mut rest = name;
    while let Some(front) = rest.strip_suffix(b"_") {
        rest = front;
    }
    rest
}

fn prefixed(alloc: Global, start: &[u8], name: &[u8]) -> Result<Vec<u8>, AllocError>
    ensures { IfOk result (λ made. made.items ≡ start.now ++ name.now) }
{
    let mut out = Vec::new(alloc);
    out.extend_from_slice(start)?;
    out.extend_from_slice(name)?;
    Ok(out)
}

// What begins with `_` is the compiler's.
fn lettered(alloc: Global, name: &[u8]) -> Result<Vec<u8>, AllocError>
    ensures { IfOk result (λ made. made.items ≡ names.lettered name.now) }
{
    if name.starts_with(b"_") {
        prefixed(alloc, b"x", name)
    } else {
        prefixed(alloc, b"", name)
    }
}

/// A name of a parameter or a member in C. `AllocError`: there was no memory.
pub fn escaped(alloc: Global, name: &[u8]) -> Result<Vec<u8>, AllocError>
    ensures { IfOk result (λ made. made.items ≡ names.escaped name.now) }
{
    let mut made = lettered(alloc, name)?;
    let taken = is_taken(trimmed(&made));
    if !taken {
        return Ok(made);
    }
    made.push(95)?;
    Ok(made)
}
