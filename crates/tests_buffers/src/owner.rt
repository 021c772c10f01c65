// The owner machine: worked words, reserved entries, and lists of steps.
mod schedules;
mod steps;
mod words;
