// Puts words and numbers into a buffer that is lent, one behind the other. Each method asks for as much room as its longest
// print takes, and promises to take no more.
ghost use Rattle.std.specs.Prelude.{◌∷◌, ◌++◌, [], ◌+◌, ◌≤◌, length};
ghost use Rattle.wording.specs.Letters.{space};
ghost use Rattle.wording.specs.Decimal.{decimal};
ghost use Rattle.print.specs.Spelled.{rule_word};
ghost use Rattle.print.specs.Lines.{word_of_rule, words_of_times, words_of_curve, words_of_wrong, further, line_of, tree_text};
ghost use Rattle.print.specs.Promises.{HasRoom, Prints, line_room, number_room, tree_room};

use crate::{Answer, Wrong};
use curve::Curve;
use rules::{Packet, Rule, Times};
use tree::{Class, MOST_CLASSES, Refusal, Tree};

// A buffer that is lent, and the place in it where the next print goes.
#[derive(Drop)]
pub struct Printer<'a> {
    pub out: &'a mut [u8],
    pub at: usize,
}

impl<'a> Printer<'a> {
    // A word as it stands.
    pub fn text(&mut self, word: &[u8])
        requires { HasRoom self.old (length word.now) }
        ensures { Prints self.old word.now self.new }
    {
        let end = self.at + word.len();
        self.out[self.at..end].copy_from_slice(word);
        self.at = end;
    }

    // A number.
    pub fn spelled(&mut self, n: u64)
        requires { HasRoom self.old 20 }
        ensures prints { Prints self.old (decimal n) self.new }
        ensures room { self.new.at ≤ self.old.at + 20 }
    {
        let mut digits = itoa::Buffer::new();
        self.text(digits.format(n).as_bytes());
    }

    // A space and a number.
    pub fn number(&mut self, n: u64)
        requires { HasRoom self.old number_room }
        ensures prints { Prints self.old (space ∷ decimal n) self.new }
        ensures room { self.new.at ≤ self.old.at + number_room }
    {
        self.text(b" ");
        self.spelled(n);
    }

    // A word, a space and a number.
    pub fn named(&mut self, word: &[u8], n: u64)
        requires { HasRoom self.old (length word.now + 21) }
        ensures prints { Prints self.old (word.now ++ (space ∷ decimal n)) self.new }
        ensures room { self.new.at ≤ self.old.at + length word.now + 21 }
    {
        self.text(word);
        self.number(n);
    }

    // The same as the last of a line.
    pub fn last(&mut self, word: &[u8], n: u64)
        requires { HasRoom self.old (length word.now + 22) }
        ensures prints { Prints self.old (word.now ++ further (decimal n ∷ [])) self.new }
        ensures room { self.new.at ≤ self.old.at + length word.now + 22 }
    {
        self.named(word, n);
        self.text(b"\n");
    }

    fn rule(&mut self, rule: Rule)
        requires { HasRoom self.old 15 }
        ensures prints { Prints self.old (space ∷ (rule_word ++ (space ∷ word_of_rule rule))) self.new }
        ensures room { self.new.at ≤ self.old.at + 15 }
    {
        match rule {
            Rule::RealTime => self.text(b" rule real-time"),
            Rule::Fair => self.text(b" rule fair"),
        }
    }

    // The times of a packet, up to the end of its line.
    #[tactic(auto, unfolding(crate::specs::Lines::further))]
    fn times(&mut self, times: Option<Times>)
        requires { HasRoom self.old 61 }
        ensures prints { Prints self.old (further (words_of_times times)) self.new }
        ensures room { self.new.at ≤ self.old.at + 61 }
    {
        match times {
            None => self.text(b"\n"),
            Some(Times { eligible, deadline }) => {
                self.named(b" eligible", eligible);
                self.last(b" deadline", deadline);
            }
        }
    }

    // The curve of a class, up to the end of its line.
    #[tactic(auto, unfolding(crate::specs::Lines::further))]
    fn curve(&mut self, curve: Curve)
        requires { HasRoom self.old 77 }
        ensures prints { Prints self.old (further (words_of_curve curve)) self.new }
        ensures room { self.new.at ≤ self.old.at + 77 }
    {
        match curve {
            Curve::None => self.text(b" none\n"),
            Curve::Straight { rate } => self.last(b" straight", rate as u64),
            Curve::FrontLoaded { first, bend, last } => {
                self.named(b" front-loaded", first as u64);
                self.pair(bend as u64, last as u64);
            }
            Curve::Delayed { bend, rate } => {
                self.text(b" delayed");
                self.pair(bend as u64, rate as u64);
            }
        }
    }

    // Two numbers, the last of a line.
    fn pair(&mut self, a: u64, b: u64)
        requires { HasRoom self.old 43 }
        ensures prints { Prints self.old (further (decimal a ∷ decimal b ∷ [])) self.new }
        ensures room { self.new.at ≤ self.old.at + 43 }
    {
        self.number(a);
        self.last(b"", b);
    }

    // What is wrong with a line, up to the end of the line that says so.
    #[tactic(auto, unfolding(crate::specs::Lines::further))]
    fn fault(&mut self, wrong: Wrong)
        requires { HasRoom self.old 39 }
        ensures { Prints self.old (further (words_of_wrong wrong)) self.new }
    {
        match wrong {
            Wrong::NotACall => self.text(b" not a call\n"),
            Wrong::NotAClass => self.text(b" not a class\n"),
            Wrong::NotANumber => self.text(b" not a number\n"),
            Wrong::TooLarge => self.text(b" number past 32 bits\n"),
            Wrong::StartFirst => self.text(b" start comes first\n"),
            Wrong::StartedAlready => self.text(b" started already\n"),
            Wrong::TreeFirst => self.text(b" tree comes first\n"),
            Wrong::NextClass { number } => {
                self.named(b" class", number as u64);
                self.text(b" comes next\n");
            }
        }
    }

    // As `packet class 1 number 0 length 500 rule real-time eligible 0 deadline 1000`.
    fn leaves(&mut self, packet: Packet)
        requires { HasRoom self.old line_room }
        ensures { Prints self.old (line_of (Answer.Leaves packet)) self.new }
    {
        self.named(b"packet class", packet.class as u64);
        self.named(b" number", packet.number);
        self.named(b" length", packet.length as u64);
        self.rule(packet.rule);
        self.times(packet.times);
    }

    // As `class 1 parent 0 share 16384 front-loaded 32768 2000 16384`.
    fn class_of(&mut self, number: u32, class: Class)
        requires { HasRoom self.old line_room }
        ensures prints { Prints self.old (line_of (Answer.ClassOf number class)) self.new }
        ensures room { self.new.at ≤ self.old.at + line_room }
    {
        self.named(b"class", number as u64);
        self.named(b" parent", class.parent as u64);
        self.named(b" share", class.share as u64);
        self.curve(class.curve);
    }

    // As `refused 7 class 3`.
    fn tree_refused(&mut self, why: Refusal, class: u32)
        requires { HasRoom self.old line_room }
        ensures { Prints self.old (line_of (Answer.TreeRefused why class)) self.new }
    {
        self.named(b"refused", tree::number(why) as u64);
        self.last(b" class", class as u64);
    }

    // As `line 5: not a call`.
    fn faulty(&mut self, number: u64, wrong: Wrong)
        requires { HasRoom self.old line_room }
        ensures { Prints self.old (line_of (Answer.Faulty number wrong)) self.new }
    {
        self.named(b"line", number);
        self.text(b":");
        self.fault(wrong);
    }

    // The line of an answer.
    #[tactic(auto, unfolding(crate::specs::Lines::further, crate::specs::Lines::line_of))]
    pub fn line(&mut self, answer: Answer)
        requires { HasRoom self.old line_room }
        ensures { Prints self.old (line_of answer) self.new }
    {
        match answer {
            Answer::Started { count } => self.last(b"started", count as u64),
            Answer::TreeRefused { why, class } => self.tree_refused(why, class),
            Answer::Accepted { number } => self.last(b"accepted number", number),
            Answer::Refused { why } => self.last(b"refused", tree::number(why) as u64),
            Answer::Leaves { packet } => self.leaves(packet),
            Answer::NoneWaits => self.text(b"none waits\n"),
            Answer::TreeHead => self.text(b"tree\n"),
            Answer::ClassOf { number, class } => self.class_of(number, class),
            Answer::Faulty { number, wrong } => self.faulty(number, wrong),
        }
    }

    // The text of a tree, with no more classes than a tree can have.
    pub(crate) fn tree(&mut self, tree: Tree)
        requires { HasRoom self.old tree_room }
        ensures { Prints self.old (tree_text tree) self.new }
    {
        self.text(b"tree\n");
        for i in 0..tree.count.min(MOST_CLASSES) {
            self.class_of(i, tree::class_at(tree, i));
        }
    }
}
