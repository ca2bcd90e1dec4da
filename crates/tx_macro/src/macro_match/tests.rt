ghost use Rattle.std.specs.Prelude.{◌≡◌};
ghost use Rattle.tx_macro.specs.Matching.{IsOpen, IsDone};
ghost use Rattle.tx_macro.specs.ParameterText.{IsParameterText};

use super::*;
use std::process::Abort;
use std::test::Fail;
use tx_tok::Cat;

const PAR: Tok = Tok::Name(9);

const A: Tok = Tok::Char(Cat::Letter, b'a');

const B: Tok = Tok::Char(Cat::Letter, b'b');

const BLANK: Tok = Tok::Char(Cat::Space, b' ');

const BEGIN: Tok = Tok::Char(Cat::Begin, b'{');

const END: Tok = Tok::Char(Cat::End, b'}');

/// Feeds tokens as long as more are wanted; the last answer, and how many were fed.
fn fed(matching: &mut MacroMatch, call: &[Tok]) -> (Match, usize)
    requires { IsOpen matching.old }
    ensures { result.0 ≡ Match.Done → IsDone matching.new }
{
    for (i, token) in call.iter().enumerate() {
        match matching.feed(*token) {
            Match::More => {}
            Match::Done => return (Match::Done, i + 1),
            Match::NoMatch => return (Match::NoMatch, i + 1),
            Match::ParEnded => return (Match::ParEnded, i + 1),
            Match::ExtraBrace => return (Match::ExtraBrace, i + 1),
            Match::Memory => return (Match::Memory, i + 1),
        }
    }
    (Match::More, call.len())
}

/// The token of a byte: `{` and `}` are braces, a space is a blank, a line end is `\par`, and any other
/// byte is a letter.
fn token(byte: u8) -> Tok {
    match byte {
        b'{' => BEGIN,
        b'}' => END,
        b' ' => BLANK,
        b'\n' => PAR,
        _ => Tok::Char(Cat::Letter, byte),
    }
}

/// The tokens of a text.
fn tokens(alloc: Global, text: &[u8]) -> Result<Vec<Tok>, AllocError> {
    let mut tokens = Vec::new(alloc);
    for byte in text {
        tokens.push(token(*byte))?;
    }
    Ok(tokens)
}

#[test]
fn a_delimiter_that_overlaps_itself(rt: HostRuntime) -> Result<(), Fail> {
    let alloc = rt.alloc();
    let params = [Tok::Param(1), A, A, B];
    for (call, answer, count, argument) in [
        (b"aaab".as_slice(), Match::Done, 4, b"a".as_slice()),
        (b"aaba".as_slice(), Match::Done, 3, b"".as_slice()),
        (b"aaaaab".as_slice(), Match::Done, 6, b"aaa".as_slice()),
        (b"abaab".as_slice(), Match::Done, 5, b"ab".as_slice()),
        (b"aacaab".as_slice(), Match::Done, 6, b"aac".as_slice()),
        (b" aab".as_slice(), Match::Done, 4, b" ".as_slice()),
        (b"{a}aab".as_slice(), Match::Done, 6, b"a".as_slice()),
        (b"{}aab".as_slice(), Match::Done, 5, b"".as_slice()),
        (b"{{a}}aab".as_slice(), Match::Done, 8, b"{a}".as_slice()),
        (b"{a}{}aab".as_slice(), Match::Done, 8, b"{a}{}".as_slice()),
        (b"{a} aab".as_slice(), Match::Done, 7, b"{a} ".as_slice()),
        (
            b"a{aab}aab".as_slice(),
            Match::Done,
            9,
            b"a{aab}".as_slice(),
        ),
        (b"aa{}baab".as_slice(), Match::Done, 8, b"aa{}b".as_slice()),
        (b"aa\n".as_slice(), Match::ParEnded, 3, b"".as_slice()),
        (b"{a\n".as_slice(), Match::ParEnded, 3, b"".as_slice()),
        (b"a}".as_slice(), Match::ExtraBrace, 2, b"".as_slice()),
        (b"{}aa}".as_slice(), Match::ExtraBrace, 5, b"".as_slice()),
        (b"a{b".as_slice(), Match::More, 3, b"".as_slice()),
        (b"{aab".as_slice(), Match::More, 4, b"".as_slice()),
        (b"aaaa".as_slice(), Match::More, 4, b"".as_slice()),
    ] {
        let mut matching = MacroMatch::new(alloc, params.as_slice(), false, PAR)?;
        let call = tokens(alloc, call)?;
        let (last, fed) = fed(&mut matching, call.as_slice());
        assert_eq!(rt; last, answer);
        assert_eq!(rt; fed, count);
        if last == Match::Done {
            let argument = tokens(alloc, argument)?;
            assert_eq!(rt; matching.arguments.len(), 1);
            assert_eq!(rt; matching.arguments[0].as_slice(), argument.as_slice());
        }
    }
    Ok(())
}

/// The number of open groups after tokens, if none has an extra right brace.
fn depth_after(tokens: &[Tok]) -> Option<usize> {
    let mut depth: usize = 0;
    for token in tokens {
        if *token == BEGIN {
            depth = depth.saturating_add(1);
        }
        if *token == END {
            depth = depth.checked_sub(1)?;
        }
    }
    Some(depth)
}

/// The first balanced tokens that the delimiter follows, found by trying each front.
fn first_front<'a>(call: &'a [Tok], delimiter: &[Tok]) -> Option<&'a [Tok]> {
    for place in 0..call.len() {
        if depth_after(&call[..place]) == Some(0) {
            if call[place..].starts_with(delimiter) {
                return Some(&call[..place]);
            }
        }
    }
    None
}

/// Balanced tokens without the braces around them.
fn without_braces(tokens: &[Tok]) -> &[Tok] {
    if tokens.len() < 2 {
        return tokens;
    }
    let inner = &tokens[1..tokens.len() - 1];
    if tokens[0] == BEGIN && depth_after(inner) == Some(0) {
        return inner;
    }
    tokens
}

/// One of the tokens `a`, `b` and the braces.
fn symbol(number: usize) -> Tok {
    match number % 4 {
        0 => A,
        1 => B,
        2 => BEGIN,
        _ => END,
    }
}

/// Whether the matcher answers as the tries do.
fn agrees(alloc: Global, params: &[Tok], call: &[Tok]) -> Result<bool, AllocError>
    requires { IsParameterText params.now }
{
    let mut matching = MacroMatch::new(alloc, params, false, PAR)?;
    let (last, count) = fed(&mut matching, call);
    let delimiter = &params[1..];
    let Some(front) = first_front(call, delimiter) else {
        return Ok(match depth_after(call) {
            Some(_) => last == Match::More,
            None => last == Match::ExtraBrace,
        });
    };
    if last != Match::Done || matching.arguments.len() != 1 {
        return Ok(false);
    }
    let argument = matching.arguments[0].as_slice();
    Ok(argument == without_braces(front) && count.checked_sub(front.len()) == Some(delimiter.len()))
}

/// Whether they agree on all calls of six tokens, and so on those that begin them.
fn agrees_on_all(alloc: Global, params: &[Tok]) -> Result<bool, AllocError>
    requires { IsParameterText params.now }
{
    for number in 0..4096 {
        let call = [
            symbol(number),
            symbol(number / 4),
            symbol(number / 16),
            symbol(number / 64),
            symbol(number / 256),
            symbol(number / 1024),
        ];
        if !agrees(alloc, params, call.as_slice())? {
            return Ok(false);
        }
    }
    Ok(true)
}

#[test]
fn tries_of_each_front(rt: HostRuntime) -> Result<(), Fail> {
    let alloc = rt.alloc();
    assert!(rt; agrees_on_all(alloc, [Tok::Param(1), A, A, B].as_slice())?);
    assert!(rt; agrees_on_all(alloc, [Tok::Param(1), A, B].as_slice())?);
    Ok(())
}

/// Checks a call: the last answer, how many tokens were fed, and the arguments with a comma between them.
fn check<R: Abort>(
    rt: &R,
    alloc: Global,
    params: &[Tok],
    call: &[u8],
    answer: Match,
    count: usize,
    arguments: &[u8],
) -> Result<(), Fail>
    requires { IsParameterText params.now }
{
    let mut matching = MacroMatch::new(alloc, params, false, PAR)?;
    let call = tokens(alloc, call)?;
    let (last, fed) = fed(&mut matching, call.as_slice());
    assert_eq!(rt; last, answer);
    assert_eq!(rt; fed, count);
    if last == Match::Done {
        let mut found = Vec::new(alloc);
        for argument in matching.arguments.as_slice() {
            if !found.is_empty() {
                found.push(token(b','))?;
            }
            found.extend_from_slice(argument.as_slice())?;
        }
        let arguments = tokens(alloc, arguments)?;
        assert_eq!(rt; found.as_slice(), arguments.as_slice());
    }
    Ok(())
}

#[test]
fn arguments_without_delimiters(rt: HostRuntime) -> Result<(), Fail> {
    let params = [Tok::Param(1), Tok::Param(2)];
    for (call, answer, count, arguments) in [
        (b"ab".as_slice(), Match::Done, 2, b"a,b".as_slice()),
        (b" a {b}".as_slice(), Match::Done, 6, b"a,b".as_slice()),
        (b"{ab}{c}".as_slice(), Match::Done, 7, b"ab,c".as_slice()),
        (b"{{a}}b".as_slice(), Match::Done, 6, b"{a},b".as_slice()),
        (b"a{ b}".as_slice(), Match::Done, 5, b"a, b".as_slice()),
        (b"a}".as_slice(), Match::ExtraBrace, 2, b"".as_slice()),
        (b"a\n".as_slice(), Match::ParEnded, 2, b"".as_slice()),
        (b"a{\n".as_slice(), Match::ParEnded, 3, b"".as_slice()),
        (b"{a".as_slice(), Match::More, 2, b"".as_slice()),
        (b"a  ".as_slice(), Match::More, 3, b"".as_slice()),
    ] {
        check(
            &rt,
            rt.alloc(),
            params.as_slice(),
            call,
            answer,
            count,
            arguments,
        )?;
    }
    let nine = [
        Tok::Param(1),
        Tok::Param(2),
        Tok::Param(3),
        Tok::Param(4),
        Tok::Param(5),
        Tok::Param(6),
        Tok::Param(7),
        Tok::Param(8),
        Tok::Param(9),
    ];
    check(
        &rt,
        rt.alloc(),
        nine.as_slice(),
        b"abcdefghi",
        Match::Done,
        9,
        b"a,b,c,d,e,f,g,h,i",
    )?;
    check(
        &rt,
        rt.alloc(),
        nine.as_slice(),
        b"abcdefgh",
        Match::More,
        8,
        b"",
    )
}

#[test]
fn arguments_with_delimiters(rt: HostRuntime) -> Result<(), Fail> {
    let params = [A, Tok::Param(1), B];
    for (call, answer, count, arguments) in [
        (b"aab".as_slice(), Match::Done, 3, b"a".as_slice()),
        (b"ab".as_slice(), Match::Done, 2, b"".as_slice()),
        (b"a b".as_slice(), Match::Done, 3, b" ".as_slice()),
        (b"a{b}b".as_slice(), Match::Done, 5, b"b".as_slice()),
        (b"a{b}cb".as_slice(), Match::Done, 6, b"{b}c".as_slice()),
        (b"b".as_slice(), Match::NoMatch, 1, b"".as_slice()),
        (b"\n".as_slice(), Match::NoMatch, 1, b"".as_slice()),
        (b"a\n".as_slice(), Match::ParEnded, 2, b"".as_slice()),
        (b"a}".as_slice(), Match::ExtraBrace, 2, b"".as_slice()),
        (b"ac{b".as_slice(), Match::More, 4, b"".as_slice()),
    ] {
        check(
            &rt,
            rt.alloc(),
            params.as_slice(),
            call,
            answer,
            count,
            arguments,
        )?;
    }
    let alloc = rt.alloc();
    let blank = [Tok::Param(1), BLANK];
    check(&rt, alloc, blank.as_slice(), b"ac ", Match::Done, 3, b"ac")?;
    check(&rt, alloc, blank.as_slice(), b" ", Match::Done, 1, b"")?;
    check(
        &rt,
        alloc,
        blank.as_slice(),
        b"{a c} ",
        Match::Done,
        6,
        b"a c",
    )?;
    let par = [Tok::Param(1), PAR];
    check(&rt, alloc, par.as_slice(), b"ac\n", Match::Done, 3, b"ac")?;
    check(&rt, alloc, par.as_slice(), b"{a\n", Match::ParEnded, 3, b"")?;
    let brace = [Tok::Param(1), BEGIN];
    check(&rt, alloc, brace.as_slice(), b"ac{", Match::Done, 3, b"ac")?;
    check(&rt, alloc, brace.as_slice(), b"{", Match::Done, 1, b"")
}

#[test]
fn arguments_and_substitution(rt: HostRuntime) -> Result<(), Fail> {
    let alloc = rt.alloc();
    let params = [B, Tok::Param(1), Tok::Param(2), BEGIN];
    let mut matching = MacroMatch::new(alloc, params.as_slice(), false, PAR)?;
    let (last, count) = fed(
        &mut matching,
        [B, BLANK, BEGIN, A, B, END, BLANK, A, BEGIN].as_slice(),
    );
    assert_eq!(rt; last, Match::Done);
    assert_eq!(rt; count, 9);
    assert_eq!(rt; matching.arguments.len(), 2);
    let mut out = Vec::new(alloc);
    matching.substitute([Tok::Param(2), B, Tok::Param(1)].as_slice(), &mut out)?;
    assert_eq!(rt; out.as_slice(), [BLANK, A, B, A, B].as_slice());
    let mut other = MacroMatch::new(alloc, params.as_slice(), false, PAR)?;
    assert_eq!(rt; fed(&mut other, [A].as_slice()).0, Match::NoMatch);
    Ok(())
}
