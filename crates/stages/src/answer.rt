// The answer to a command.
ghost use Rattle.std.specs.Prelude.{◌≡◌, ℕ, ◌≤◌, length, OnOk};
ghost use Rattle.std.specs.Result.{result_err};
ghost use Rattle.store.specs.Map.{Map};
ghost use Rattle.run.specs.State.{Phase};
ghost use Rattle.run.specs.Run.{unless, wrong_size, bad_status, text_of, answer_text, answered};
ghost use Rattle.stages.specs.Courses.{answer_course};

use run::fault::Cause;

// An answer has 2 to 258 bytes.
fn check_size(answer: &[u8]) -> Result<(), Cause>
    ensures cause { result_err result ≡ wrong_size answer.now }
    ensures long { OnOk result (2 ≤ length answer.now) }
{
    if answer.len() < 2 || answer.len() > 258 {
        return Err(Cause::WrongSize);
    }
    Ok(())
}

// Its last two bytes are '9000'.
fn check_status(answer: &[u8]) -> Result<(), Cause>
    requires { 2 ≤ length answer.now }
    ensures { result_err result ≡ bad_status answer.now }
{
    match answer {
        [.., 0x90, 0x00] => Ok(()),
        [.., sw1, sw2] => Err(Cause::BadStatus(*sw1, *sw2)),
        _ => unreachable(),
    }
}

// What is wrong with an answer before its text is looked at.
fn check_answer(answer: &[u8]) -> Result<(), Cause>
    ensures { (phase : Phase) (share : ℕ) (held : Map) → unless (result_err result) held (answer_text phase share held (text_of answer.now)) ≡ answered phase share held answer.now }
{
    check_size(answer)?;
    check_status(answer)
}

// The text of an answer, which has the right size and the status '9000'.
pub fn answer_text(answer: &[u8]) -> Result<&[u8], Cause>
    ensures { (phase : Phase) (share : ℕ) (held : Map) → answer_course result phase share held ≡ answered phase share held answer.now }
{
    check_answer(answer)?;
    Ok(&answer[..answer.len().saturating_sub(2)])
}
