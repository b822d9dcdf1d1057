//! Calls of the program over objects in memory.

use opal_base::{MemFiles, MemSink, MemSource};
use opal_cli::{Command, Status, opal, read_words};
use std::test::Fail;

const USAGE: &[u8] =
    b"usage: opal compile FILE | map FILE | check FILE | run SCRIPT [--steps N] [--cells N] | exec FILE [--steps N] [--cells N] | sample N\n";

/// A call of the program over objects in memory.
#[derive(Drop)]
struct Call<'a> {
    words: &'a [&'a str],
    file: &'a [u8],
    input: &'a [u8],
    files_fail: &'a [u64],
    input_fails: &'a [u64],
    out_most: usize,
    out_fails: &'a [u64],
    err_fails: &'a [u64],
}

impl<'a> Call<'a> {
    fn of(words: &'a [&'a str], file: &'a [u8]) -> Call<'a> {
        Call {
            words,
            file,
            input: b"",
            files_fail: &[],
            input_fails: &[],
            out_most: 4096,
            out_fails: &[],
            err_fails: &[],
        }
    }

    // The status, and what out and err took. The file lies under `main.rb`, `dir/main.rb` and `x.js`.
    fn ran(&self, rt: &HostRuntime) -> Result<(Status, Vec<u8>, Vec<u8>), Fail> {
        let alloc = rt.alloc();
        let mut files = MemFiles::new(alloc, self.files_fail.to_vec(alloc)?);
        for name in ["main.rb", "dir/main.rb", "x.js"] {
            if files
                .insert(name.to_string(alloc)?, self.file.to_vec(alloc)?)
                .is_err()
            {
                return Ok((Status::NoMemory, Vec::new(alloc), Vec::new(alloc)));
            }
        }
        let mut words = Vec::new(alloc);
        for word in self.words {
            words.push(word.to_string(alloc)?)?;
        }
        let mut input = MemSource::new(
            alloc,
            self.input.to_vec(alloc)?,
            self.input_fails.to_vec(alloc)?,
        );
        let mut out = MemSink::new(alloc, self.out_most.max(1), self.out_fails.to_vec(alloc)?);
        let mut err = MemSink::new(alloc, 3, self.err_fails.to_vec(alloc)?);
        let status = opal(alloc, &words, &mut files, &mut input, &mut out, &mut err);
        Ok((
            status,
            out.taken().to_vec(alloc)?,
            err.taken().to_vec(alloc)?,
        ))
    }
}

#[test]
fn files_are_compiled(rt: HostRuntime) -> Result<(), Fail> {
    let cases: [(&[u8], &[u8]); 13] = [
        (b"puts 'hi'", b"\"use strict\";\n$host.write(\"hi\\n\");\n"),
        (
            b"puts 'hi'\n",
            b"\"use strict\";\n$host.write(\"hi\\n\");\n",
        ),
        (
            b"puts '\xc3\xa9'",
            b"\"use strict\";\n$host.write(\"\\u00e9\\n\");\n",
        ),
        (b"", b"\"use strict\";\n"),
        (b"puts ''\n", b"\"use strict\";\n$host.write(\"\\n\");\n"),
        (
            b"puts 'a'\nputs 'b'",
            b"\"use strict\";\n$host.write(\"a\\n\");\n$host.write(\"b\\n\");\n",
        ),
        (
            b"puts '\"\t~\x7f'",
            b"\"use strict\";\n$host.write(\"\\\"\\t~\\u007f\\n\");\n",
        ),
        (
            b"puts '\xf0\x9f\x98\x80'",
            b"\"use strict\";\n$host.write(\"\\ud83d\\ude00\\n\");\n",
        ),
        (
            b"puts '#{x}'",
            b"\"use strict\";\n$host.write(\"#{x}\\n\");\n",
        ),
        (
            b"puts(\"a\\tb\\n\") # told once\n\n",
            b"\"use strict\";\n$host.write(\"a\\tb\\n\");\n",
        ),
        (
            b"puts 'it\\'s'; puts \"\\u{e9}\"",
            b"\"use strict\";\n$host.write(\"it's\\n\");\n$host.write(\"\\u00e9\\n\");\n",
        ),
        (
            b"(puts 'a'; (puts 'b'))\nputs 'c'",
            b"\"use strict\";\n$host.write(\"a\\n\");\n$host.write(\"b\\n\");\n$host.write(\"c\\n\");\n",
        ),
        (b"# nothing\n()\n", b"\"use strict\";\n"),
    ];
    for (file, script) in cases {
        let (status, out, err) = Call::of(&["compile", "main.rb"], file).ran(&rt)?;
        assert_eq!(rt; status, Status::Done);
        assert_eq!(rt; out.as_slice(), script);
        assert!(rt; err.is_empty());
    }
    Ok(())
}

#[test]
fn refusals_name_their_place(rt: HostRuntime) -> Result<(), Fail> {
    let cases: [(&[u8], &[u8]); 12] = [
        (b"puts 'a'\nx = 1", b"dir/main.rb:2:1: refused: NotYet\n"),
        (b"puts 'a'; puts 1", b"dir/main.rb:1:11: refused: NotYet\n"),
        (b"require 'a'", b"dir/main.rb:1:1: refused: NotYet\n"),
        (b"x = /a/", b"dir/main.rb:1:5: refused: Regexp\n"),
        (b"class A\n", b"dir/main.rb:2:1: refused: Syntax\n"),
        (
            b"x = 5\ny = x -1",
            b"dir/main.rb:2:7: refused: AmbiguousArgument\n",
        ),
        (b"break", b"dir/main.rb:1:1: refused: JumpOutside\n"),
        (
            b"puts 9007199254740992",
            b"dir/main.rb:1:6: refused: NumberLiteral\n",
        ),
        (b"\xff", b"dir/main.rb:1:1: refused: BadByte\n"),
        (
            b"puts 'a'\n\xc3\xa9\xf0\x9f\x98\x80\xc0\x80",
            b"dir/main.rb:2:4: refused: BadByte\n",
        ),
        (b"x\n\xed\xa0\x80", b"dir/main.rb:2:1: refused: BadByte\n"),
        (b"puts '\xe2\x82", b"dir/main.rb:1:7: refused: BadByte\n"),
    ];
    for (file, line) in cases {
        let (status, out, err) = Call::of(&["compile", "dir/main.rb"], file).ran(&rt)?;
        assert_eq!(rt; status, Status::Refused);
        assert!(rt; out.is_empty());
        assert_eq!(rt; err.as_slice(), line);
    }
    Ok(())
}

#[test]
fn words_without_a_reading_are_usage(rt: HostRuntime) -> Result<(), Fail> {
    let cases: [&[&str]; 21] = [
        &[],
        &["compile"],
        &["check"],
        &["check", "main.rb", "main.rb"],
        &["compile", ""],
        &["compile", "-x"],
        &["compile", "main.rb", "main.rb"],
        &["Compile", "main.rb"],
        &["map", "main.rb"],
        &["main.rb"],
        &["compile", "main.rb", "--steps", "5"],
        &["run"],
        &["run", "-x.js"],
        &["run", "x.js", "--steps"],
        &["run", "x.js", "--steps", "05"],
        &["run", "x.js", "--steps", "1000000001"],
        &["run", "x.js", "--cells", "999"],
        &["run", "x.js", "--cells", "16777217"],
        &["run", "x.js", "--steps", "5", "--steps", "5"],
        &["exec", "main.rb", "--cells", "1000", "--turns", "5"],
        &["exec", "main.rb", "--cells", "1000", "--steps", "5", "x"],
    ];
    for words in cases {
        let (status, out, err) = Call::of(words, b"puts 'a'").ran(&rt)?;
        assert_eq!(rt; status, Status::Usage);
        assert_eq!(rt; status.code(), 2);
        assert!(rt; out.is_empty());
        assert_eq!(rt; err.as_slice(), USAGE);
    }
    let alloc = rt.alloc();
    let words = vec![in alloc; "compile".to_string(alloc)?, "a b".to_string(alloc)?]?;
    let file = match read_words(&words) {
        Some(Command::Compile(file)) => file,
        _ => "",
    };
    assert_eq!(rt; file, "a b");
    Ok(())
}

#[test]
fn files_that_fail_or_are_absent(rt: HostRuntime) -> Result<(), Fail> {
    let (status, out, err) = Call::of(&["compile", "other.rb"], b"").ran(&rt)?;
    assert_eq!(rt; status, Status::Missing);
    assert!(rt; out.is_empty());
    assert_eq!(rt; err.as_slice(), b"missing: other.rb\n".as_slice());
    let call = Call {
        files_fail: &[0],
        ..Call::of(&["compile", "main.rb"], b"puts 'a'")
    };
    let (status, out, err) = call.ran(&rt)?;
    assert_eq!(rt; status, Status::ReadFault);
    assert!(rt; out.is_empty());
    assert_eq!(rt; err.as_slice(), b"read fault\n".as_slice());
    Ok(())
}

#[test]
fn out_fails_at_each_call_in_turn(rt: HostRuntime) -> Result<(), Fail> {
    let script: &[u8] = b"\"use strict\";\n$host.write(\"hi\\n\");\n";
    for at in 0..5u64 {
        let call = Call {
            out_most: 7,
            out_fails: &[at],
            ..Call::of(&["compile", "main.rb"], b"puts 'hi'")
        };
        let (status, out, err) = call.ran(&rt)?;
        assert_eq!(rt; status, Status::WriteFault);
        assert_eq!(rt; out.as_slice(), &script[..at as usize * 7]);
        assert_eq!(rt; err.as_slice(), b"write fault\n".as_slice());
    }
    Ok(())
}

#[test]
fn err_fails_and_its_fault_is_told_once(rt: HostRuntime) -> Result<(), Fail> {
    // three bytes a call: the second call fails, and then the line of the fault follows
    let call = Call {
        err_fails: &[1],
        ..Call::of(&["compile", "other.rb"], b"")
    };
    let (status, _, err) = call.ran(&rt)?;
    assert_eq!(rt; status, Status::WriteFault);
    assert_eq!(rt; err.as_slice(), b"miswrite fault\n".as_slice());
    let call = Call {
        err_fails: &[0, 1],
        ..Call::of(&[], b"")
    };
    let (status, _, err) = call.ran(&rt)?;
    assert_eq!(rt; status, Status::WriteFault);
    assert!(rt; err.is_empty());
    let call = Call {
        out_fails: &[0],
        err_fails: &[2],
        ..Call::of(&["compile", "main.rb"], b"")
    };
    let (status, _, err) = call.ran(&rt)?;
    assert_eq!(rt; status, Status::WriteFault);
    assert_eq!(rt; err.as_slice(), b"write ".as_slice());
    Ok(())
}

#[test]
fn the_longest_file_and_one_byte_more(rt: HostRuntime) -> Result<(), Fail> {
    let alloc = rt.alloc();
    let mut file = Vec::new(alloc);
    file.extend_from_slice(b"puts '")?;
    for _ in 0..1_048_569u32 {
        file.push(b'a')?;
    }
    file.push(b'\'')?;
    let (status, out, _) = Call::of(&["compile", "main.rb"], &file).ran(&rt)?;
    assert_eq!(rt; status, Status::Done);
    // the directive's line, `$host.write("`, the text, and `\n");` with a newline
    assert_eq!(rt; out.len(), 14 + 13 + 1_048_569 + 6);
    file.push(b'\n')?;
    let (status, out, err) = Call::of(&["compile", "main.rb"], &file).ran(&rt)?;
    assert_eq!(rt; status, Status::Refused);
    assert!(rt; out.is_empty());
    assert_eq!(rt;
        err.as_slice(),
        b"main.rb:1:1: refused: FileTooLong\n".as_slice()
    );
    Ok(())
}

/// A call, and its status and what out and err take of it.
type Row<'a> = (&'a [&'a str], &'a [u8], &'a [u8], u8, &'a [u8], &'a [u8]);

#[test]
fn scripts_and_programs_are_run(rt: HostRuntime) -> Result<(), Fail> {
    let writes_a: &[u8] = b"'use strict';$host.write(\"a\");";
    let rows: [Row<'_>; 19] = [
        (
            &["check", "main.rb"],
            b"puts 'hi'",
            b"\xff",
            0,
            b"ok\n",
            b"",
        ),
        (
            &["check", "main.rb"],
            b"puts 'hi",
            b"",
            3,
            b"",
            b"main.rb:1:6: refused: Unterminated\n",
        ),
        (
            &["check", "other.rb"],
            b"",
            b"",
            4,
            b"",
            b"missing: other.rb\n",
        ),
        (&["exec", "main.rb"], b"puts 'hi'", b"", 0, b"hi\n", b""),
        (&["exec", "main.rb"], b"", b"", 0, b"", b""),
        (
            &["exec", "main.rb"],
            b"puts 'a'\nputs '\xf0\x9f\x98\x80\xc3\xa9'\n",
            b"\xc3\xa9\n",
            0,
            b"a\n\xf0\x9f\x98\x80\xc3\xa9\n",
            b"",
        ),
        (
            &["run", "x.js", "--steps", "5"],
            writes_a,
            b"",
            0,
            b"a",
            b"",
        ),
        (
            &["run", "x.js", "--steps", "4"],
            writes_a,
            b"",
            8,
            b"",
            b"out of steps: 4\n",
        ),
        (
            &["run", "x.js", "--steps", "0"],
            b"'use strict';",
            b"",
            0,
            b"",
            b"",
        ),
        (
            &["run", "x.js", "--cells", "1000", "--steps", "9"],
            b"\"use strict\"; // two\n$host /* of */ .write('\\x41\\u00e9');\n$host.write('b');",
            b"",
            8,
            b"A\xc3\xa9",
            b"out of steps: 9\n",
        ),
        (
            &["exec", "main.rb", "--steps", "6", "--cells", "16777216"],
            b"puts 'a'\nputs 'b'",
            b"",
            8,
            b"a\n",
            b"out of steps: 6\n",
        ),
        (
            &["run", "x.js"],
            b"'use strict'",
            b"\xff",
            10,
            b"",
            b"x.js:1:13: not a script\n",
        ),
        (
            &["run", "dir/main.rb"],
            b"'use strict';\n  @",
            b"",
            10,
            b"",
            b"dir/main.rb:2:3: not a script\n",
        ),
        (
            &["run", "x.js"],
            b"'use strict';\n$host.write(\"a\")",
            b"",
            10,
            b"",
            b"x.js:2:17: not a script\n",
        ),
        (&["run", "y.js"], b"", b"\xff", 4, b"", b"missing: y.js\n"),
        (
            &["exec", "main.rb"],
            b"puts 'a'",
            b"\xff",
            11,
            b"",
            b"bad input at 0\n",
        ),
        (
            &["run", "x.js"],
            writes_a,
            b"ab\xc3\xa9\xe2\x82",
            11,
            b"",
            b"bad input at 4\n",
        ),
        (
            &["exec", "main.rb"],
            b"puts 'a'\nx",
            b"\xff",
            3,
            b"",
            b"main.rb:2:1: refused: NotYet\n",
        ),
        (
            &["exec", "other.rb"],
            b"",
            b"\xff",
            4,
            b"",
            b"missing: other.rb\n",
        ),
    ];
    assert_eq!(rt; first_wrong(&rt, &rows)?, None);
    Ok(())
}

// The number of the first row whose call ends or writes otherwise, with an out that takes a byte a
// call or all of it.
fn first_wrong(rt: &HostRuntime, rows: &[Row<'_>]) -> Result<Option<usize>, Fail> {
    for (i, (words, file, input, code, out, err)) in rows.iter().enumerate() {
        for out_most in [1, 4096] {
            let call = Call {
                input,
                out_most,
                ..Call::of(words, file)
            };
            let (status, written, told) = call.ran(rt)?;
            if status.code() != *code || written.as_slice() != *out || told.as_slice() != *err {
                return Ok(Some(i));
            }
        }
    }
    Ok(None)
}

#[test]
fn whole_scripts_are_run(rt: HostRuntime) -> Result<(), Fail> {
    let rows: [Row<'_>; 13] = [
        (
            &["run", "x.js"],
            b"'use strict';\nvar i = 0;\nwhile (i < 3) { $host.write(i + ';'); i = i + 1; }",
            b"",
            0,
            b"0;1;2;",
            b"",
        ),
        (
            &["run", "x.js"],
            b"'use strict';\nvar f = function g(n) { if (n < 2) return 1; return n * g(n - 1); };\n$host.write('' + f(5));",
            b"",
            0,
            b"120",
            b"",
        ),
        (
            &["run", "x.js"],
            b"'use strict';\nvar make = function () { var n = 0; return function () { n = n + 1; return n; }; };\nvar next = make();\nnext();\n$host.write('' + next());",
            b"",
            0,
            b"2",
            b"",
        ),
        (
            &["run", "x.js"],
            b"'use strict';\nvar a = [3, 1];\na.push(2);\nvar o = Object.create({ x: 'p' });\n$host.write(a.length + o.x + typeof a[9]);",
            b"",
            0,
            b"3pundefined",
            b"",
        ),
        (
            &["run", "x.js"],
            b"'use strict';\nvar l = $host.line();\nwhile (l !== null) { $host.write('> ' + l); l = $host.line(); }",
            b"a\nb",
            0,
            b"> a\n> b",
            b"",
        ),
        (
            &["run", "x.js"],
            b"'use strict';\ntry { throw { message: 'm' }; } catch (e) { $host.write(e.message); } finally { $host.write('!'); }",
            b"",
            0,
            b"m!",
            b"",
        ),
        (
            &["run", "x.js"],
            b"'use strict';\nvar f = function () { try { return 1; } finally { return 2; } };\n$host.write('' + f());",
            b"",
            0,
            b"2",
            b"",
        ),
        (
            &["run", "x.js"],
            b"'use strict';\n$host.write('a');\nthrow { name: 'Odd', message: 'one' };",
            b"",
            1,
            b"a",
            b"uncaught: Odd: one\n",
        ),
        (
            &["run", "x.js"],
            b"'use strict';\nthrow 'text';",
            b"",
            1,
            b"",
            b"uncaught: Error: \n",
        ),
        (
            &["run", "x.js"],
            b"'use strict';\n$host.write('a');\nx;",
            b"",
            1,
            b"a",
            b"uncaught: ReferenceError: not defined: x\n",
        ),
        (
            &["run", "x.js"],
            b"'use strict';\nx = 1;",
            b"",
            1,
            b"",
            b"uncaught: ReferenceError: not defined: x\n",
        ),
        (
            &["run", "x.js"],
            b"'use strict';\nnull.x;",
            b"",
            1,
            b"",
            b"uncaught: TypeError: no properties\n",
        ),
        (
            &["run", "x.js"],
            b"'use strict';var a = Object.create(null);Object.setPrototypeOf(a, a);",
            b"",
            1,
            b"",
            b"uncaught: TypeError: cyclic link\n",
        ),
    ];
    assert_eq!(rt; first_wrong(&rt, &rows)?, None);
    Ok(())
}

#[test]
fn scripts_leave_the_profile_and_the_grammar_at_a_place(rt: HostRuntime) -> Result<(), Fail> {
    let rows: [Row<'_>; 7] = [
        (
            &["run", "x.js"],
            b"'use strict';\n1 / 0;",
            b"",
            7,
            b"",
            b"outside: Division at 2:1\n",
        ),
        (
            &["run", "x.js"],
            b"'use strict';\n$host.write('a');\n  $host.write('b' + 1 / 2);",
            b"",
            7,
            b"a",
            b"outside: Division at 3:21\n",
        ),
        (
            &["run", "x.js"],
            b"'use strict';\nvar m = 9007199254740991;\n$host.write('' + (m + 1));",
            b"",
            7,
            b"",
            b"outside: Number at 3:19\n",
        ),
        (
            &["run", "x.js"],
            b"'use strict';\n1 + null;",
            b"",
            7,
            b"",
            b"outside: Conversion at 2:1\n",
        ),
        (
            &["run", "x.js"],
            b"'use strict';\n$host.write(1);",
            b"",
            7,
            b"",
            b"outside: Host at 2:1\n",
        ),
        (
            &["run", "x.js"],
            b"'use strict';\nvar x = ;",
            b"",
            10,
            b"",
            b"x.js:2:9: not a script\n",
        ),
        (
            &["run", "x.js"],
            b"'use strict';\nwhile (true) { break; } break;",
            b"",
            10,
            b"",
            b"x.js:2:25: not a script\n",
        ),
    ];
    assert_eq!(rt; first_wrong(&rt, &rows)?, None);
    Ok(())
}

#[test]
fn scripts_stop_at_their_budgets(rt: HostRuntime) -> Result<(), Fail> {
    let rows: [Row<'_>; 7] = [
        (
            &["run", "x.js", "--steps", "24"],
            b"'use strict';\nvar i = 0;\nwhile (i < 2) i = i + 1;",
            b"",
            0,
            b"",
            b"",
        ),
        (
            &["run", "x.js", "--steps", "23"],
            b"'use strict';\nvar i = 0;\nwhile (i < 2) i = i + 1;",
            b"",
            8,
            b"",
            b"out of steps: 23\n",
        ),
        (
            &["run", "x.js", "--steps", "1000"],
            b"'use strict';while (true) { }",
            b"",
            8,
            b"",
            b"out of steps: 1000\n",
        ),
        (
            &["run", "x.js", "--cells", "1000"],
            b"'use strict';\n$host.write('a');\nvar i = 0;\nwhile (i < 1000) { i = i + 1; var o = {}; }\n$host.write('z');",
            b"",
            0,
            b"az",
            b"",
        ),
        (
            &["run", "x.js", "--cells", "1000"],
            b"'use strict';\n$host.write('a');\nvar i = 0;\nwhile (i < 1001) { i = i + 1; var o = {}; }\n$host.write('z');",
            b"",
            9,
            b"a",
            b"cells full: 1000\n",
        ),
        (
            &["run", "x.js", "--cells", "1000"],
            b"'use strict';\nvar f = function g(n) { if (n === 0) return 0; return g(n - 1); };\n$host.write('' + f(998));",
            b"",
            0,
            b"0",
            b"",
        ),
        (
            &["run", "x.js", "--cells", "1000"],
            b"'use strict';\nvar f = function g(n) { if (n === 0) return 0; return g(n - 1); };\n$host.write('' + f(999));",
            b"",
            9,
            b"",
            b"cells full: 1000\n",
        ),
    ];
    assert_eq!(rt; first_wrong(&rt, &rows)?, None);
    Ok(())
}

#[test]
fn input_and_out_fail_in_a_run(rt: HostRuntime) -> Result<(), Fail> {
    for at in [0, 1] {
        let call = Call {
            input: b"a",
            input_fails: &[at],
            ..Call::of(&["exec", "main.rb"], b"puts 'a'")
        };
        let (status, out, err) = call.ran(&rt)?;
        assert_eq!(rt; status, Status::ReadFault);
        assert!(rt; out.is_empty());
        assert_eq!(rt; err.as_slice(), b"read fault\n".as_slice());
    }
    for at in 0..3u64 {
        let call = Call {
            out_most: 1,
            out_fails: &[at],
            ..Call::of(&["exec", "main.rb"], b"puts 'a'\nputs 'b'")
        };
        let (status, out, err) = call.ran(&rt)?;
        assert_eq!(rt; status, Status::WriteFault);
        assert_eq!(rt; out.as_slice(), &b"a\nb"[..at as usize]);
        assert_eq!(rt; err.as_slice(), b"write fault\n".as_slice());
    }
    Ok(())
}

#[test]
fn scripts_and_inputs_of_one_byte_more_than_the_longest(rt: HostRuntime) -> Result<(), Fail> {
    let alloc = rt.alloc();
    let script = vec![in alloc; b' '; 67_108_865]?;
    let (status, out, err) = Call::of(&["run", "x.js"], &script).ran(&rt)?;
    assert_eq!(rt; status, Status::NotScript);
    assert!(rt; out.is_empty());
    assert_eq!(rt; err.as_slice(), b"x.js:1:1: not a script\n".as_slice());
    let input = vec![in alloc; b'a'; 16_777_217]?;
    let call = Call {
        input: &input,
        ..Call::of(&["run", "x.js"], b"'use strict';")
    };
    let (status, out, err) = call.ran(&rt)?;
    assert_eq!(rt; status, Status::BadInput);
    assert!(rt; out.is_empty());
    assert_eq!(rt; err.as_slice(), b"bad input at 16777216\n".as_slice());
    Ok(())
}
