//! Texts with their trees, and texts with their hopeless token, written from the grammar.
use itoa::Buffer;
use mars_base::{BinOp, Role, Span, UnOp};
use mc_lex::lex;
use mc_reader::{ReadFault, read};
use mc_tree::{Name, RawDecl, RawExpr, RawFunc, RawNumber, RawStmt, RawTask};
use std::alloc::{AllocError, Global};
use std::test::Fail;

// A tree as text: each name, number, operator and statement with its span, after an `@`, and each
// binary operator in parentheses. A parenthesis has no span of its own.
#[derive(Drop)]
struct Outline {
    text: Vec<u8>,
    spans: bool,
}

impl Outline {
    fn put(&mut self, text: &[u8]) -> Result<(), AllocError> {
        self.text.extend_from_slice(text)
    }

    fn number(&mut self, value: u64) -> Result<(), AllocError> {
        let mut buffer = Buffer::new();
        self.put(buffer.format(value).as_bytes())
    }

    fn span(&mut self, span: Span) -> Result<(), AllocError> {
        if !self.spans {
            return Ok(());
        }
        self.put(b"@")?;
        self.number(u64::from(span.from))?;
        self.put(b"-")?;
        self.number(u64::from(span.to))
    }

    fn raw_number(&mut self, number: RawNumber) -> Result<(), AllocError> {
        self.number(number.value)?;
        self.span(number.span)
    }

    fn name(&mut self, name: &Name) -> Result<(), AllocError> {
        self.put(name.text.as_slice())?;
        self.span(name.span)
    }

    fn expr(&mut self, expr: &RawExpr) -> Result<(), AllocError> {
        match expr {
            RawExpr::Number(number) => self.raw_number(*number),
            RawExpr::Cell(name) => self.name(name),
            RawExpr::At { cell, index, span } => {
                self.name(cell)?;
                self.put(b"[")?;
                self.expr(index.get())?;
                self.put(b"]")?;
                self.span(*span)
            }
            RawExpr::Unary { op, arg, span } => {
                self.put(b"(")?;
                self.put(unary_text(*op))?;
                self.expr(arg.get())?;
                self.put(b")")?;
                self.span(*span)
            }
            RawExpr::Binary {
                op,
                left,
                right,
                span,
            } => {
                self.put(b"(")?;
                self.expr(left.get())?;
                self.put(binary_text(*op))?;
                self.expr(right.get())?;
                self.put(b")")?;
                self.span(*span)
            }
        }
    }

    fn statement(&mut self, statement: &RawStmt) -> Result<(), AllocError> {
        match statement {
            RawStmt::Set { cell, value, span } => {
                self.name(cell)?;
                self.put(b"=")?;
                self.expr(value)?;
                self.put(b";")?;
                self.span(*span)
            }
            RawStmt::SetAt {
                cell,
                index,
                value,
                span,
            } => {
                self.name(cell)?;
                self.put(b"[")?;
                self.expr(index)?;
                self.put(b"]=")?;
                self.expr(value)?;
                self.put(b";")?;
                self.span(*span)
            }
            RawStmt::Call {
                cell,
                func,
                args,
                span,
            } => {
                self.name(cell)?;
                self.put(b"=")?;
                self.name(func)?;
                self.put(b"(")?;
                self.arguments(args.as_slice())?;
                self.put(b");")?;
                self.span(*span)
            }
            RawStmt::If {
                test,
                first,
                other,
                span,
            } => {
                self.put(b"if ")?;
                self.expr(test)?;
                self.put(b"{")?;
                for inner in first.as_slice() {
                    self.statement(inner)?;
                }
                self.put(b"}")?;
                if let Some(other) = other {
                    self.put(b"else{")?;
                    for inner in other.as_slice() {
                        self.statement(inner)?;
                    }
                    self.put(b"}")?;
                }
                self.span(*span)
            }
            RawStmt::While {
                bound,
                test,
                body,
                span,
            } => {
                self.put(b"while ")?;
                self.raw_number(*bound)?;
                self.put(b" ")?;
                self.expr(test)?;
                self.put(b"{")?;
                for inner in body.as_slice() {
                    self.statement(inner)?;
                }
                self.put(b"}")?;
                self.span(*span)
            }
            RawStmt::Scope {
                name,
                bound,
                body,
                span,
            } => {
                self.put(b"scope ")?;
                self.name(name)?;
                self.put(b" ")?;
                self.raw_number(*bound)?;
                self.put(b"{")?;
                for inner in body.as_slice() {
                    self.statement(inner)?;
                }
                self.put(b"}")?;
                self.span(*span)
            }
            RawStmt::Mark { name, span } => {
                self.put(b"mark ")?;
                self.name(name)?;
                self.put(b";")?;
                self.span(*span)
            }
            RawStmt::Sequence { bound, body, span } => {
                self.put(b"sequence ")?;
                self.raw_number(*bound)?;
                self.put(b"{")?;
                for inner in body.as_slice() {
                    self.statement(inner)?;
                }
                self.put(b"}")?;
                self.span(*span)
            }
        }
    }

    fn arguments(&mut self, args: &[RawExpr]) -> Result<(), AllocError> {
        for i in 0..args.len() {
            if i > 0 {
                self.put(b",")?;
            }
            self.expr(&args[i])?;
        }
        Ok(())
    }

    fn declarations(&mut self, decls: &[RawDecl]) -> Result<(), AllocError> {
        for decl in decls {
            self.put(match decl.role {
                Role::In => b"in ".as_slice(),
                Role::Out => b"out ".as_slice(),
                Role::State => b"state ".as_slice(),
                Role::Local => b"var ".as_slice(),
            })?;
            self.name(&decl.name)?;
            if let Some(width) = decl.width {
                self.put(b"[")?;
                self.raw_number(width)?;
                self.put(b"]")?;
            }
            self.put(b";")?;
        }
        Ok(())
    }

    fn function(&mut self, func: &RawFunc) -> Result<(), AllocError> {
        self.put(b"func ")?;
        self.name(&func.name)?;
        self.put(b"(")?;
        let params = func.params.as_slice();
        for i in 0..params.len() {
            if i > 0 {
                self.put(b",")?;
            }
            self.name(&params[i])?;
        }
        self.put(b"){")?;
        self.declarations(func.locals.as_slice())?;
        for statement in func.body.as_slice() {
            self.statement(statement)?;
        }
        self.put(b"return ")?;
        self.expr(&func.answer)?;
        self.put(b";}")?;
        self.span(func.span)
    }

    fn task(&mut self, task: &RawTask) -> Result<(), AllocError> {
        self.name(&task.name)?;
        self.put(b";")?;
        self.declarations(task.decls.as_slice())?;
        for func in task.funcs.as_slice() {
            self.function(func)?;
        }
        if let Some(body) = &task.body {
            self.put(b"body{")?;
            self.declarations(body.locals.as_slice())?;
            for statement in body.body.as_slice() {
                self.statement(statement)?;
            }
            self.put(b"}")?;
        }
        self.put(b".")?;
        self.number(u64::from(task.end))
    }
}

fn unary_text(op: UnOp) -> &'static [u8] {
    match op {
        UnOp::Neg => b"-",
        UnOp::Not => b"!",
        UnOp::Inv => b"~",
    }
}

fn binary_text(op: BinOp) -> &'static [u8] {
    match op {
        BinOp::Or => b"||",
        BinOp::And => b"&&",
        BinOp::BitOr => b"|",
        BinOp::BitXor => b"^",
        BinOp::BitAnd => b"&",
        BinOp::Eq => b"==",
        BinOp::Ne => b"!=",
        BinOp::Lt => b"<",
        BinOp::Le => b"<=",
        BinOp::Gt => b">",
        BinOp::Ge => b">=",
        BinOp::Shl => b"<<",
        BinOp::Shr => b">>",
        BinOp::Add => b"+",
        BinOp::Sub => b"-",
        BinOp::Mul => b"*",
        BinOp::Div => b"/",
        BinOp::Rem => b"%",
    }
}

const TREES: [(&[u8], &[u8]); 10] = [
    (b"task t;", b"t@5-6;.7"),
    (
        b"task t; out y[17]; body { }",
        b"t@5-6;out y@12-13[17@14-16];body{}.27",
    ),
    (
        b"task inc; in a; out y; body { y = a + 1; }",
        b"inc@5-8;in a@13-14;out y@20-21;body{y@30-31=(a@34-35+1@38-39)@34-39;@30-40}.42",
    ),
    (
        b"task t; out y; body { y = -(a+1)*2; }",
        b"t@5-6;out y@12-13;body{y@22-23=((-(a@28-29+1@30-31)@28-31)@26-31*2@33-34)@26-34;@22-35}.37",
    ),
    (
        b"task t; body { y = ((a)); y[(0)] = a[ (1) ] ; }",
        b"t@5-6;body{y@15-16=a@21-22;@15-25y@26-27[0@29-30]=a@35-36[1@39-40]@35-43;@26-45}.47",
    ),
    (
        b"task t; state s[2]; body { var i; var j[3]; }",
        b"t@5-6;state s@14-15[2@16-17];body{var i@31-32;var j@38-39[3@40-41];}.45",
    ),
    (
        b"task r; in x; out y; func f(a) { var b; b = f(a); return b; } body { y = f(x); }",
        b"r@5-6;in x@11-12;out y@18-19;func f@26-27(a@28-29){var b@37-38;b@40-41=f@44-45(a@46-47);@40-49return b@57-58;}@21-61body{y@69-70=f@73-74(x@75-76);@69-78}.80",
    ),
    (
        b"task t; func f() { return 0; } func g(a, b) { return a || b; }",
        b"t@5-6;func f@13-14(){return 0@26-27;}@8-30func g@36-37(a@38-39,b@41-42){return (a@53-54||b@58-59)@53-59;}@31-62.62",
    ),
    (
        b"task t; body { if (a) { if (b) { } } else { x = g(1, c); } }",
        b"t@5-6;body{if a@19-20{if b@28-29{}@24-34}else{x@44-45=g@48-49(1@50-51,c@53-54);@44-56}@15-58}.60",
    ),
    (
        b"task t; body { while max 3 (b) { mark M; } scope S max 0 { } sequence max 2 { while max 4 (c) { } } }",
        b"t@5-6;body{while 3@25-26 b@28-29{mark M@38-39;@33-40}@15-42scope S@49-50 0@55-56{}@43-60sequence 2@74-75{while 4@88-89 c@91-92{}@78-97}@61-99}.101",
    ),
];

#[test]
fn texts_have_these_trees(rt: HostRuntime) -> Result<(), Fail> {
    let alloc = rt.alloc();
    for (text, want) in TREES {
        assert!(rt; text.len() <= 65_536);
        let tokens = lex(alloc, text)?;
        let task = read(alloc, text, &tokens)?;
        let mut outline = Outline {
            text: Vec::new(alloc),
            spans: true,
        };
        outline.task(&task)?;
        assert_eq!(rt; outline.text.as_slice(), want, "in {text:?}");
    }
    Ok(())
}

const HOPELESS: [(&[u8], u32); 28] = [
    (b"", 0),
    (b"task", 1),
    (b"task t", 2),
    (b"body", 0),
    (b"task task;", 1),
    (b"task t; out y; body { y = ; }", 10),
    (b"task t; out y[;", 6),
    (b"task t; var v;", 3),
    (b"task t; out y; in x body { }", 8),
    (b"task t; body { } body { }", 6),
    (b"task t; body { y = 1; } ;", 10),
    (b"task t; body {", 5),
    (b"task t; func f(a,) { return 1; }", 8),
    (b"task t; func f() { }", 8),
    (b"task t; body { in x; }", 5),
    (b"task t; body { y = 1; var i; }", 9),
    (b"task t; body { x[0] = f(1); }", 11),
    (b"task t; body { x = f(1)+2; }", 11),
    (b"task t; body { x = 1 2; }", 8),
    (b"task t; body { x = a[1][2]; }", 11),
    (b"task t; body { x = (1]; }", 9),
    (b"task t; body { x = -; }", 8),
    (b"task t; body { y = (1", 9),
    (b"task t; body { if (1) x = 2; }", 9),
    (b"task t; body { else { } }", 5),
    (b"task t; body { if (1) { } else { } else { } }", 14),
    (b"task t; body { while (1) { } }", 6),
    (b"task t; body { mark max; }", 6),
];

#[test]
fn texts_have_this_hopeless_token(rt: HostRuntime) -> Result<(), Fail> {
    let alloc = rt.alloc();
    for (text, number) in HOPELESS {
        assert!(rt; text.len() <= 65_536);
        let tokens = lex(alloc, text)?;
        assert_eq!(rt;
            read(alloc, text, &tokens).err(),
            Some(ReadFault::Syntax(number)),
            "in {text:?}"
        );
    }
    Ok(())
}

// The binary operators, each with its level, from the weakest on.
const LEVELS: [(&[u8], u8); 18] = [
    (b"||", 1),
    (b"&&", 2),
    (b"|", 3),
    (b"^", 4),
    (b"&", 5),
    (b"==", 6),
    (b"!=", 6),
    (b"<", 7),
    (b"<=", 7),
    (b">", 7),
    (b">=", 7),
    (b"<<", 8),
    (b">>", 8),
    (b"+", 9),
    (b"-", 9),
    (b"*", 10),
    (b"/", 10),
    (b"%", 10),
];

// The parts one after another.
fn joined(alloc: Global, parts: &[&[u8]]) -> Result<Vec<u8>, AllocError> {
    let mut text = Vec::new(alloc);
    for part in parts {
        text.extend_from_slice(part)?;
    }
    Ok(text)
}

#[test]
fn each_pair_of_operators_groups_by_level(rt: HostRuntime) -> Result<(), Fail> {
    let alloc = rt.alloc();
    for (first, weak) in LEVELS {
        for (second, strong) in LEVELS {
            let text = joined(alloc, &[b"task t;body{x=-a", first, b"!b", second, b"~c;}"])?;
            let want = if strong > weak {
                joined(
                    alloc,
                    &[b"t;body{x=((-a)", first, b"((!b)", second, b"(~c)));}."],
                )?
            } else {
                joined(
                    alloc,
                    &[b"t;body{x=(((-a)", first, b"(!b))", second, b"(~c));}."],
                )?
            };
            assert!(rt; text.len() <= 65_536);
            let tokens = lex(alloc, &text)?;
            let task = read(alloc, &text, &tokens)?;
            let mut outline = Outline {
                text: Vec::new(alloc),
                spans: false,
            };
            outline.task(&task)?;
            assert!(rt;
                outline.text.as_slice().starts_with(&want),
                "{first:?} {second:?}"
            );
        }
    }
    Ok(())
}

// So many of a part, between a front, a middle and a back.
#[derive(Clone, Copy)]
struct Many {
    front: &'static [u8],
    part: &'static [u8],
    middle: &'static [u8],
    end: &'static [u8],
    back: &'static [u8],
}

impl Many {
    fn text(&self, alloc: Global, count: u32) -> Result<Vec<u8>, AllocError> {
        let mut text = Vec::from_slice(alloc, self.front)?;
        for _ in 0..count {
            text.extend_from_slice(self.part)?;
        }
        text.extend_from_slice(self.middle)?;
        for _ in 0..count {
            text.extend_from_slice(self.end)?;
        }
        text.extend_from_slice(self.back)?;
        Ok(text)
    }
}

// How many are right, and the token that the next one makes hopeless.
const BOUNDS: [(Many, u32, u32); 9] = [
    (
        Many {
            front: b"task t; body { x = ",
            part: b"(",
            middle: b"1",
            end: b")",
            back: b"; }",
        },
        63,
        7 + 63,
    ),
    (
        Many {
            front: b"task t; body { x = ",
            part: b"a[",
            middle: b"1",
            end: b"]",
            back: b"; }",
        },
        63,
        7 + 2 * 63 + 1,
    ),
    (
        Many {
            front: b"task t; body { x[",
            part: b"(",
            middle: b"1",
            end: b")",
            back: b"] = (1); }",
        },
        63,
        7 + 63,
    ),
    (
        Many {
            front: b"task t; body { x = 1",
            part: b"+1",
            middle: b"",
            end: b"",
            back: b"; }",
        },
        255,
        8 + 2 * 255,
    ),
    (
        Many {
            front: b"task t; body { x = ",
            part: b"-",
            middle: b"1",
            end: b"",
            back: b"; }",
        },
        255,
        7 + 255,
    ),
    (
        Many {
            front: b"task t; body { ",
            part: b"if (1) {",
            middle: b"",
            end: b"}",
            back: b"}",
        },
        64,
        5 + 5 * 64,
    ),
    (
        Many {
            front: b"task t; body { ",
            part: b"while max 1 (1) {",
            middle: b"mark M;",
            end: b"}",
            back: b"}",
        },
        64,
        5 + 7 * 64,
    ),
    (
        Many {
            front: b"task t; body { ",
            part: b"scope S max 1 {",
            middle: b"x = 1;",
            end: b"}",
            back: b"}",
        },
        64,
        5 + 5 * 64,
    ),
    (
        Many {
            front: b"task t; func f() { ",
            part: b"sequence max 1 {",
            middle: b"",
            end: b"}",
            back: b"return 0; }",
        },
        64,
        8 + 4 * 64,
    ),
];

#[test]
fn the_bounds_hold_and_no_more(rt: HostRuntime) -> Result<(), Fail> {
    let alloc = rt.alloc();
    for (many, most, token) in &BOUNDS {
        let most = *most;
        let text = many.text(alloc, most)?;
        assert!(rt; text.len() <= 65_536);
        let tokens = lex(alloc, &text)?;
        assert!(rt; read(alloc, &text, &tokens).is_ok(), "{text:?}");
        let text = many.text(alloc, most.saturating_add(1))?;
        assert!(rt; text.len() <= 65_536);
        let tokens = lex(alloc, &text)?;
        assert_eq!(rt;
            read(alloc, &text, &tokens).err(),
            Some(ReadFault::Syntax(*token))
        );
    }
    Ok(())
}

#[test]
fn the_greatest_texts_are_read(rt: HostRuntime) -> Result<(), Fail> {
    let alloc = rt.alloc();
    let many = Many {
        front: b"task t; body { ",
        part: b"y=1;",
        middle: b"",
        end: b"",
        back: b"}",
    };
    let text = many.text(alloc, 16_380)?;
    assert!(rt; text.len() == 65_536);
    let tokens = lex(alloc, &text)?;
    let task = read(alloc, &text, &tokens)?;
    assert_eq!(rt; task.end, 65_536);
    match &task.body {
        Some(body) => assert_eq!(rt; body.body.as_slice().len(), 16_380),
        None => assert!(rt; false, "no body"),
    }

    // 16 functions, each with 64 nested compound statements around 255 operators.
    let mut text = Vec::from_slice(alloc, b"task t;")?;
    let nested = Many {
        front: b"func f(a) {",
        part: b"while max 1 (a) {",
        middle: b"a=",
        end: b"",
        back: b"",
    };
    let sum = Many {
        front: b"1",
        part: b"+a",
        middle: b";",
        end: b"",
        back: b"",
    };
    let closed = Many {
        front: b"",
        part: b"}",
        middle: b"",
        end: b"",
        back: b" return 0; }",
    };
    for _ in 0..16 {
        text.extend_from_slice(&nested.text(alloc, 64)?)?;
        text.extend_from_slice(&sum.text(alloc, 255)?)?;
        text.extend_from_slice(&closed.text(alloc, 64)?)?;
    }
    assert!(rt; text.len() <= 65_536);
    let tokens = lex(alloc, &text)?;
    let task = read(alloc, &text, &tokens)?;
    assert_eq!(rt; task.funcs.as_slice().len(), 16);
    Ok(())
}
