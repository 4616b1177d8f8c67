//! Words, by which nodes are joined to the users and groups that they take over. A rule takes
//! words, and a user or a group can be had by words: the rule takes it over exactly if both share a
//! word. A word has a mark, and then a namespace, a name or nothing.

ghost use Rattle.std.specs.Prelude.{◌≡◌, ◌<◌, ◌↔◌, ◌∷◌, All, Any, Contains, IfOk, IsTrue, List, MatchOption};
ghost use Rattle.std.specs.Prelude.{None, OnOk, Some, length, map};
ghost use Rattle.std.specs.Option.{option_copied};
ghost use Rattle.rbac_terms.specs.Principals.{IsPart};
ghost use Rattle.rbac_terms.specs.Text.{Text};
ghost use Rattle.rbac_paths.specs.Asked.{IsAnyUser};
ghost use Rattle.rbac_paths.specs.SharedWords.{AddsWhere, AreHadBy, CountsAtKubeSystem};
ghost use Rattle.rbac_paths.specs.SharedWords.{GrantTakesWord, IsWordFor};
ghost use Rattle.rbac_paths.specs.SharedWords.{LetsName, LetsWord, StepTakesWord, TakeWord};
ghost use Rattle.rbac_paths.specs.SharedWords.{chosen_word};
ghost use Rattle.rbac_paths.specs.Steps.{CountsThere};
ghost use Rattle.rbac_paths.specs.Takeovers.{HaveTakeovers};
ghost use Rattle.rbac_paths.specs.declared.table.Counts.{Counts};
ghost use Rattle.rbac_steps.specs.declared.steps.Step.{Step};
ghost use Rattle.rbac_paths.specs.declared.table.Over.TheVariants as over;

use crate::holding::Holding;
use crate::rows::{counts_there, has_name, is_kube_system};
use crate::rule_takeovers::RuleTakeovers;
use crate::table::{Names, Over};
use crate::takeover::{Takeover, is_over_nobody, takeovers_of};
use crate::taking::{account_parts, is_bootstrapper, is_user};
use crate::told::StepRows;
use rbac_model::Policy;
use rbac_terms::{Principal, Rule, Word, Words, account_user};
use std::alloc::{AllocError, Global};

// The marks of words for service accounts: any account, any account of a namespace, any account
// with a name, and one account.
const ANY_ACCOUNT: u8 = b'A';

const ACCOUNT_OF: u8 = b'B';

const ACCOUNT_NAMED: u8 = b'C';

const THAT_ACCOUNT: u8 = b'D';

// The marks of words for groups: any group, and one group; and for groups that bootstrap tokens can
// have: any of them, and one of them.
const ANY_GROUP: u8 = b'G';

const THAT_GROUP: u8 = b'H';

const ANY_BOOTSTRAPPER: u8 = b'I';

const THAT_BOOTSTRAPPER: u8 = b'J';

// The marks of words for users who are no service accounts: any user, and one user.
const ANY_USER: u8 = b'U';

const THAT_USER: u8 = b'V';

/// The words by which a user or a group can be had.
pub(crate) fn words_of_whom(alloc: Global, who: &Principal) -> Result<Words, AllocError>
    ensures { IfOk result (AreHadBy who.now) }
{
    match account_parts(who) {
        Some((namespace, name)) => marked(
            alloc,
            &[
                (ANY_ACCOUNT, b"".as_slice()),
                (ACCOUNT_OF, namespace),
                (ACCOUNT_NAMED, name),
                (THAT_ACCOUNT, who.name()),
            ],
        ),
        None if is_user(who) => marked(
            alloc,
            &[(ANY_USER, b"".as_slice()), (THAT_USER, who.name())],
        ),
        None => words_of_group(alloc, who),
    }
}

// The words by which a group can be had.
fn words_of_group(alloc: Global, group: &Principal) -> Result<Words, AllocError>
    requires { ¬ IsAnyUser group.now }
    ensures { IfOk result (AreHadBy group.now) }
{
    let name = group.name();
    if is_bootstrapper(group) {
        return marked(
            alloc,
            &[
                (ANY_GROUP, b"".as_slice()),
                (THAT_GROUP, name),
                (ANY_BOOTSTRAPPER, b"".as_slice()),
                (THAT_BOOTSTRAPPER, name),
            ],
        );
    }
    marked(alloc, &[(ANY_GROUP, b"".as_slice()), (THAT_GROUP, name)])
}

// For each of these parts, the word that has the mark and then the text.
fn marked(alloc: Global, parts: &[(u8, &[u8])]) -> Result<Words, AllocError>
    ensures { IfOk result (λ ws. ws ≡ map (λ part. part.0 ∷ part.1.now) parts.now) }
{
    let mut words = Words::new(alloc);
    for (mark, text) in parts {
        words.push(word(alloc, *mark, text)?)?;
    }
    Ok(words)
}

/// The word that has this mark and then the text.
pub(crate) fn word(alloc: Global, mark: u8, text: &[u8]) -> Result<Word, AllocError>
    ensures { IfOk result (λ w. w ≡ mark ∷ text.now) }
{
    let mut word = Word::new(alloc);
    word.push(mark)?;
    word.push_slice(text)?;
    Ok(word)
}

/// The words that these holdings take by these steps, in any order and with repeats.
pub(crate) fn taken_words(
    alloc: Global,
    steps: &[StepRows],
    holdings: &[Holding<'_>],
) -> Result<Words, AllocError>
    ensures { IfOk result (λ ws. (w : Text) → Contains ws w ↔ TakeWord steps.now holdings.now w) }
{
    let mut words = Words::new(alloc);
    for held in holdings {
        add_of_holding(alloc, steps, held, &mut words)?;
    }
    Ok(words)
}

/// The words that the grants with these numbers take by some steps, in any order and with repeats.
/// `takeovers` lists what each rule of each role takes over by these steps.
pub(crate) fn words_of_grants(
    alloc: Global,
    policy: &Policy,
    takeovers: &RuleTakeovers,
    numbers: &[u32],
) -> Result<Words, AllocError>
    requires within { All (λ n. n < length policy.now.grants) numbers.now }
    ensures { (steps : List Step) → HaveTakeovers policy.now.held steps takeovers.now
        → IfOk result (λ ws. (w : Text) → Contains ws w
        ↔ Any (GrantTakesWord policy.now steps w) numbers.now) }
{
    let mut words = Words::new(alloc);
    for no in numbers {
        add_of_grant(alloc, policy, takeovers, *no, &mut words)?;
    }
    Ok(words)
}

// Adds the words that the grant with this number takes by some steps.
fn add_of_grant(
    alloc: Global,
    policy: &Policy,
    takeovers: &RuleTakeovers,
    no: u32,
    words: &mut Words,
) -> Result<(), AllocError>
    requires { no < length policy.now.grants }
    ensures { (steps : List Step) → HaveTakeovers policy.now.held steps takeovers.now
        → OnOk result (AddsWhere (λ w. GrantTakesWord policy.now steps w no) words.old words.new) }
{
    let held = Holding::by(policy.grant(no));
    add_of_takeovers(alloc, takeovers.of_grant(policy.place(no)), &held, words)
}

// Adds the words that a holding takes by these steps.
fn add_of_holding(
    alloc: Global,
    steps: &[StepRows],
    held: &Holding<'_>,
    words: &mut Words,
) -> Result<(), AllocError>
    ensures { OnOk result (AddsWhere
        (λ w. Any (StepTakesWord held.now.home held.now.rule w) steps.now) words.old words.new) }
{
    let takeovers = takeovers_of(alloc, steps, held.rule)?;
    add_of_takeovers(alloc, takeovers.as_slice(), held, words)
}

// Adds the words that a holding takes, if these are the takeovers of its rule.
fn add_of_takeovers(
    alloc: Global,
    takeovers: &[Takeover],
    held: &Holding<'_>,
    words: &mut Words,
) -> Result<(), AllocError>
    ensures { OnOk result (AddsWhere
        (λ w. Any (λ t. LetsWord t held.now.home held.now.rule w) takeovers.now)
        words.old words.new) }
{
    for takeover in takeovers {
        takeover.add_words(alloc, held.home, held.rule, words)?;
    }
    Ok(())
}

impl Takeover {
    // Adds the words that a rule with this takeover takes if it counts in `home`: in this
    // namespace, or in the whole cluster if there is none.
    fn add_words(
        &self,
        alloc: Global,
        home: Option<&Word>,
        rule: &Rule,
        words: &mut Words,
    ) -> Result<(), AllocError>
        ensures { OnOk result (AddsWhere (LetsWord self.now (option_copied home.entry) rule.now)
            words.old words.new) }
    {
        // Nobody is taken over by these words, however many names the rule lists.
        if is_over_nobody(self.over) {
            return Ok(());
        }
        if self.lets_any(rule) {
            return self.add_word(alloc, home, None, words);
        }
        match self.names {
            Names::Own => self.add_named(alloc, home, rule.resource_names.as_slice(), words),
            Names::None | Names::Any => Ok(()),
        }
    }

    // Whether the rule's object names match the requests for nodes of any name.
    fn lets_any(&self, rule: &Rule) -> bool
        ensures { IsTrue result ↔ LetsName self.now.names rule.now None }
    {
        match self.names {
            Names::None => has_name(rule, b""),
            Names::Own => rule.resource_names.is_empty(),
            Names::Any => true,
        }
    }

    // Adds the words for users, groups or service accounts with these names.
    fn add_named(
        &self,
        alloc: Global,
        home: Option<&Word>,
        names: &[Word],
        words: &mut Words,
    ) -> Result<(), AllocError>
        ensures { OnOk result (AddsWhere (λ w. Any
            (λ name. IsWordFor self.now.over self.now.counts (option_copied home.entry)
            (Some name) w) names.now) words.old words.new) }
    {
        for name in names {
            self.add_word(alloc, home, Some(name), words)?;
        }
        Ok(())
    }

    // Adds the word for the users, groups or service accounts with this name, or with any name if
    // there is none. Adds nothing if there is no such word. Most grants of a binding give the same
    // word as the grant before, so the last word isn't added again.
    fn add_word(
        &self,
        alloc: Global,
        home: Option<&Word>,
        name: Option<&Word>,
        words: &mut Words,
    ) -> Result<(), AllocError>
        ensures { OnOk result (AddsWhere
            (IsWordFor self.now.over self.now.counts (option_copied home.entry)
            (option_copied name.entry))
            words.old words.new) }
    {
        if let Some(word) = self.word_for(alloc, home, name)? {
            if !ends_in(words, &word) {
                words.push(word)?;
            }
        }
        Ok(())
    }

    // The word for the users, groups or service accounts that a rule with this takeover takes over
    // if it counts in `home`: those with this name, or with any name if there is none. `None` if
    // the rule takes over nobody there.
    fn word_for(
        &self,
        alloc: Global,
        home: Option<&Word>,
        name: Option<&Word>,
    ) -> Result<Option<Word>, AllocError>
        ensures { IfOk result (λ o. MatchOption o
            ((w : Text) → ¬ IsWordFor self.now.over self.now.counts
            (option_copied home.entry) (option_copied name.entry) w)
            (λ word. (w : Text) → IsWordFor self.now.over self.now.counts
            (option_copied home.entry) (option_copied name.entry) w ↔ (w ≡ word))) }
    {
        match (self.over, home) {
            (Over::Users, None) => Ok(Some(chosen(alloc, (ANY_USER, THAT_USER), name)?)),
            (Over::Groups, None) => Ok(Some(chosen(alloc, (ANY_GROUP, THAT_GROUP), name)?)),
            (Over::Bootstrappers, home) if self.counts_at_kube_system(home) => {
                let marks = (ANY_BOOTSTRAPPER, THAT_BOOTSTRAPPER);
                Ok(Some(chosen(alloc, marks, name)?))
            }
            (Over::Accounts, None) => Ok(Some(chosen(alloc, (ANY_ACCOUNT, ACCOUNT_NAMED), name)?)),
            (Over::Accounts, Some(home)) if counts_there(self.counts, home.as_bytes()) => {
                account_word(alloc, home, name)
            }
            _ => Ok(None),
        }
    }

    // Whether requests in the namespace of bootstrap tokens count for a rule that counts in `home`.
    fn counts_at_kube_system(&self, home: Option<&Word>) -> bool
        ensures { IsTrue result ↔ CountsAtKubeSystem self.now.counts (option_copied home.entry) }
    {
        match home {
            None => true,
            Some(home) => {
                let namespace = home.as_bytes();
                counts_there(self.counts, namespace) && is_kube_system(namespace)
            }
        }
    }
}

// Whether the last of these words is this word.
fn ends_in(words: &Words, word: &Word) -> bool
    ensures { IsTrue result → Contains words.now word.now }
{
    match words.as_slice().last() {
        Some(last) => last == word,
        None => false,
    }
}

// The word that has the second mark and then the name, or, if there is none, the first mark alone.
fn chosen(alloc: Global, marks: (u8, u8), name: Option<&Word>) -> Result<Word, AllocError>
    ensures { IfOk result (λ w. w ≡ chosen_word marks.0 marks.1 (option_copied name.entry)) }
{
    match name {
        None => word(alloc, marks.0, b""),
        Some(name) => word(alloc, marks.1, name.as_bytes()),
    }
}

// The word for the service account of this name in this namespace, or, if there is none, for any
// service account of the namespace. `None` if no service account can have these names.
fn account_word(alloc: Global, home: &Word, name: Option<&Word>) -> Result<Option<Word>, AllocError>
    ensures { (counts : Counts) → CountsThere counts home.now
        → IfOk result (λ o. MatchOption o
        ((w : Text) → ¬ IsWordFor over.Accounts counts
        (Some home.now) (option_copied name.entry) w)
        (λ word. (w : Text) → IsWordFor over.Accounts counts
        (Some home.now) (option_copied name.entry) w ↔ (w ≡ word))) }
{
    match name {
        None => Ok(Some(word(alloc, ACCOUNT_OF, home.as_bytes())?)),
        Some(name) if is_part(home) && is_part(name) => {
            let user = account_user(alloc, home, name)?;
            Ok(Some(word(alloc, THAT_ACCOUNT, user.as_bytes())?))
        }
        Some(_) => Ok(None),
    }
}

// Whether the word can be the namespace or the name in a service account's user name.
fn is_part(word: &Word) -> bool
    ensures { IsTrue result ↔ IsPart word.now }
{
    !word.is_empty() && !word.as_bytes().contains(&b':')
}
