//! A cursor over tokens.

ghost use Rattle.std.specs.Prelude.{◌≡◌, length, Ok, codes};
ghost use Rattle.pz_parser_cursor.specs.devices.LookAhead as look;
ghost use Rattle.pz_parser_cursor.specs.devices.Input as input;
ghost use Rattle.pz_parser_cursor.specs.devices.Device as device;
ghost use Rattle.pz_parser_cursor.specs.devices.Device.{Reads, MakesOr};

use crate::Refusal;
use crate::ahead::{Next, next_of, same};
use pz_syntax::{Id, Keyword, Literal, Name, Pos, Token, TokenKind};
use std::alloc::Global;
use std::marker::Model;

/// The tokens that are left. Contracts see the list of them.
#[derive(Drop)]
pub struct Cursor<'a> {
    rest: &'a [Token],
}

impl<'a> Model for Cursor<'a> {
    ghost use Rattle.std.specs.Prelude.{List};
    ghost use Rattle.pz_syntax.specs.declared.tokens.Token.{Token};

    ghost Value = { List Token };

    ghost view = { λ c. c.rest.now };
}

impl<'a> Cursor<'a> {
    /// All of these tokens are left.
    pub fn new(rest: &'a [Token]) -> Cursor<'a>
        ensures all { result ≡ rest.now }
    {
        Cursor { rest }
    }

    /// How many tokens are left.
    pub fn left(&self) -> usize
        ensures count { result ≡ length self.now }
    {
        self.rest.len()
    }

    /// What stands next.
    pub fn peek(&self) -> Next
        ensures is { result ≡ look.next self.now }
    {
        next_of(self.rest)
    }

    /// Where the next token stands. At the end any place.
    #[tactic(auto, unfolding(crate::specs::devices::Input::position))]
    pub fn pos(&self) -> Pos
        ensures is { result ≡ input.position self.now }
    {
        match self.rest {
            [] => Pos { line: 1, column: 1 },
            [token, ..] => token.pos,
        }
    }

    /// The refusal of the next token.
    pub fn refuse(&self) -> Refusal
        ensures is { result ≡ Refusal.Syntax (length self.now) }
    {
        Refusal::Syntax(self.left())
    }

    /// Whether this stands next.
    #[tactic(auto, unfolding(crate::specs::devices::Input::sees))]
    pub fn sees(&self, next: Next) -> bool
        ensures is { result ≡ input.sees next self.now }
    {
        same(self.peek(), next)
    }

    /// Whether this stands behind the next token.
    #[tactic(auto, unfolding(crate::specs::devices::Input::sees, crate::specs::devices::Input::after))]
    pub fn sees_second(&self, next: Next) -> bool
        ensures is { result ≡ input.sees next (input.after self.now) }
    {
        match self.rest {
            [] => same(next_of(self.rest), next),
            [_, rest @ ..] => same(next_of(rest), next),
        }
    }

    /// Whether the next token is a selector that is sent.
    #[tactic(auto, unfolding(crate::specs::devices::Input::selects))]
    pub fn sees_selector(&self) -> bool
        ensures is { result ≡ input.selects self.now }
    {
        match self.peek() {
            Next::Init => true,
            Next::Word => !spelled_init(self.rest),
            _ => false,
        }
    }

    /// Whether the next token is a selector that names a method.
    #[tactic(auto, unfolding(crate::specs::devices::Input::selects_head))]
    pub fn sees_selector_head(&self) -> bool
        ensures is { result ≡ input.selects_head self.now }
    {
        match self.peek() {
            Next::InitHead => true,
            Next::Head => !spelled_init(self.rest),
            _ => false,
        }
    }

    /// Goes past the next token. At the end nothing happens.
    #[tactic(auto, unfolding(crate::specs::devices::Input::after))]
    pub fn skip(&mut self)
        ensures past { self.new ≡ input.after self.old }
    {
        if let [_, rest @ ..] = self.rest {
            self.rest = rest;
        }
    }

    /// Goes past the next token if it is this, and tells whether it was.
    #[tactic(auto, unfolding(crate::specs::devices::Device::past))]
    pub fn eat(&mut self, next: Next) -> bool
        ensures found { result ≡ input.sees next self.old }
        ensures past { self.new ≡ device.past next self.old }
    {
        let found = self.sees(next);
        if found {
            self.skip();
        }
        found
    }

    /// Goes past the next token, which has to be this.
    #[tactic(auto, unfolding(crate::specs::devices::Device::expect))]
    pub fn expect(&mut self, next: Next) -> Result<(), Refusal>
        ensures reads { Reads (λ _. tt) (device.expect next self.old) result self.new }
    {
        if self.sees(next) {
            self.skip();
            Ok(())
        } else {
            Err(self.refuse())
        }
    }

    /// Goes past the next token, with which one more construct begins, if `depth` more may nest and
    /// that is not 0.
    #[tactic(auto, unfolding(crate::specs::devices::Device::deepen))]
    pub fn deepen(&mut self, depth: usize) -> Result<(), Refusal>
        ensures reads { Reads (λ _. tt) (device.deepen depth self.old) result self.new }
    {
        if depth == 0 {
            return Err(Refusal::TooNested(self.left()));
        }
        self.skip();
        Ok(())
    }

    /// The next token as a name at its place. The keyword `init` is the name `init`.
    #[tactic(auto, unfolding(crate::specs::devices::Input::identifier))]
    pub fn take_id(&mut self, alloc: Global) -> Result<Id, Refusal>
        ensures reads { Reads (λ x. x) (device.take_id self.old) result self.new }
    {
        let pos = self.pos();
        let name = name_of(alloc, self.rest)?;
        self.skip();
        Ok(Id { name, pos })
    }

    /// The next token, which has to be this kind of name.
    #[tactic(auto, unfolding(crate::specs::devices::Device::expect_id))]
    pub fn expect_id(&mut self, alloc: Global, next: Next) -> Result<Id, Refusal>
        ensures reads { Reads (λ x. x) (device.expect_id next self.old) result self.new }
    {
        if self.sees(next) {
            self.take_id(alloc)
        } else {
            Err(self.refuse())
        }
    }

    /// The next token as a literal.
    pub fn take_literal(&mut self) -> Result<Literal, Refusal>
        ensures reads { Reads (λ x. x) (device.take_literal self.old) result self.new }
    {
        let literal = literal_of(self.rest)?;
        self.skip();
        Ok(literal)
    }

    /// The next token as an integer.
    pub fn take_number(&mut self) -> i64
        ensures reads { device.take_number self.old ≡ Ok (result, self.new) }
    {
        let number = number_of(self.rest);
        self.skip();
        number
    }
}

#[tactic(auto, unfolding(crate::specs::devices::Input::name))]
fn name_of(alloc: Global, tokens: &[Token]) -> Result<Name, Refusal>
    ensures { MakesOr (λ name. name ≡ input.name tokens.now) result }
{
    match tokens {
        [] => init_name(alloc),
        [token, ..] => name_by(alloc, &token.mark.kind),
    }
}

fn name_by(alloc: Global, kind: &TokenKind) -> Result<Name, Refusal>
    ensures { MakesOr (λ name. name ≡ input.name_by kind.now) result }
{
    match kind {
        TokenKind::Ident(name) => Ok(name.copy()?),
        _ => init_name(alloc),
    }
}

fn init_name(alloc: Global) -> Result<Name, Refusal>
    ensures { MakesOr (λ name. name ≡ codes "init") result }
{
    Ok(Name::new(alloc, "init")?)
}

#[tactic(auto, unfolding(crate::specs::devices::Input::spelled_init, crate::specs::devices::Input::name))]
fn spelled_init(tokens: &[Token]) -> bool
    ensures { result ≡ input.spelled_init tokens.now }
{
    match tokens {
        [] => true,
        [token, ..] => match &token.mark.kind {
            TokenKind::Ident(name) => name.as_str() == "init",
            _ => true,
        },
    }
}

#[tactic(auto, unfolding(crate::specs::devices::Input::number))]
fn number_of(tokens: &[Token]) -> i64
    ensures { result ≡ input.number tokens.now }
{
    match tokens {
        [] => 0,
        [token, ..] => match &token.mark.kind {
            TokenKind::Int(number) => *number,
            _ => 0,
        },
    }
}

#[tactic(auto, unfolding(crate::specs::devices::Input::literal))]
fn literal_of(tokens: &[Token]) -> Result<Literal, Refusal>
    ensures { MakesOr (λ x. x ≡ input.literal tokens.now) result }
{
    match tokens {
        [] => Ok(Literal::Nil),
        [token, ..] => literal_by(&token.mark.kind),
    }
}

fn literal_by(kind: &TokenKind) -> Result<Literal, Refusal>
    ensures { MakesOr (λ x. x ≡ input.literal_by kind.now) result }
{
    match kind {
        TokenKind::Int(number) => Ok(Literal::Int(*number)),
        TokenKind::Float => Ok(Literal::Float),
        TokenKind::Char(byte) => Ok(Literal::Char(*byte)),
        TokenKind::Str(text) => Ok(Literal::Str(text.copy()?)),
        TokenKind::Key(key) => Ok(literal_key(*key)),
        _ => Ok(Literal::Nil),
    }
}

fn literal_key(key: Keyword) -> Literal
    ensures { result ≡ input.literal_key key }
{
    match key {
        Keyword::True => Literal::True,
        Keyword::False => Literal::False,
        _ => Literal::Nil,
    }
}
