//! The parts of a page. `page/make texts` writes this file.

/// What stands before the style.
pub(crate) const FRONT: &[u8] = br#"<!doctype html>
<html lang="en">
<head>
<meta charset="utf-8">
<meta http-equiv="Content-Security-Policy" content="default-src 'none'; style-src 'sha256-ngARmNP9XnmqxoVT13qX0luh8dNwuWNcE8u+wyg4r3I='; script-src 'sha256-H4djJ/B0TELys/wyUcnfgwhg/ezhfhTg6cwEHL00/YI='; base-uri 'none'; form-action 'none'">
<meta name="viewport" content="width=device-width, initial-scale=1">
<title>isofarm classes</title>
<style>"#;

/// The style.
pub(crate) const STYLE: &[u8] = br#":root {
  color-scheme: light dark;
  --ground: light-dark(#f6f6f4, #15171a);
  --surface: light-dark(#ffffff, #1c1f23);
  --raised: light-dark(#eef0f2, #272b31);
  --ink: light-dark(#1b1d20, #e6e7e9);
  --muted: light-dark(#565c64, #a0a7b0);
  --line: light-dark(#dfe1e4, #343941);
  --strong: light-dark(#878e97, #6d7580);
  --mark: light-dark(#1d55b3, #8ab4f8);
  --picked: light-dark(#e8effb, #22304a);
  --lock: light-dark(#4a6076, #93a9c2);
  --wait: light-dark(#824600, #f0b357);
  --wait-ground: light-dark(#fdf3e1, #332916);
  --wait-stripe: light-dark(#f6dfb8, #4a3a1c);
  --fail: light-dark(#b0221a, #ff9a90);
  --fail-ground: light-dark(#fdeeec, #3a2121);
  --fail-stripe: light-dark(#f7dcd8, #472929);
  --good: light-dark(#1c6b34, #7fcf97);
  --pitch: 8px;
  --thick: 5px;
  --mono: ui-monospace, "SF Mono", "Cascadia Mono", Menlo, Consolas, "DejaVu Sans Mono", monospace;
  --sans: system-ui, "Segoe UI", Roboto, "Helvetica Neue", "Liberation Sans", Arial, sans-serif;
}
* { box-sizing: border-box; }
[hidden] { display: none !important; }
body { margin: 0; background: var(--ground); color: var(--ink); font: 14px/1.45 var(--sans); font-variant-numeric: tabular-nums; }
h1, h2, h3, p { margin: 0; font-weight: 600; }
h1 { font-size: 20px; letter-spacing: -.01em; overflow-wrap: anywhere; }
h2 { font-size: 14px; }
p { font-weight: 400; }
bdi { unicode-bidi: isolate; white-space: pre-wrap; }
td, .order, code { font-family: var(--mono); font-size: 12.5px; line-height: 1.45; }
.muted { color: var(--muted); font-weight: 400; }
.space { flex: 1; }
.hidden { position: absolute; width: 1px; height: 1px; overflow: hidden; clip-path: inset(50%); white-space: nowrap; }
button { font: inherit; color: inherit; background: var(--surface); border: 1px solid var(--strong); border-radius: 5px; padding: 2px 9px; min-height: 28px; cursor: pointer; }
button:hover { background: var(--raised); }
:focus-visible { outline: 2px solid var(--mark); outline-offset: 1px; }

/* the head, what is expected, the letters */
header { display: flex; flex-wrap: wrap; gap: 4px 20px; align-items: baseline; padding: 18px 24px 12px; }
header .figures { color: var(--muted); }
header .figures b { color: var(--ink); font-weight: 600; }
#theme { border-color: var(--line); font-size: 12px; color: var(--muted); background: none; }
main { padding: 0 24px 24px; }
.results { container-type: inline-size; min-width: 0; }
#expected { margin-bottom: 12px; padding: 8px 14px; font-size: 13px; overflow-wrap: anywhere; }
#expected p + p { margin-top: 4px; }
#expected button { padding: 0 6px; min-height: 22px; font-size: 12px; }
.filters { display: grid; gap: 6px; grid-template-columns: repeat(3, 1fr); margin-bottom: 12px; }
.filters button { display: grid; grid-template-columns: 15px auto 1fr; gap: 0 7px; align-content: start; align-items: center; text-align: left; border-color: var(--line); padding: 4px 10px; }
.filters .sign { display: grid; place-items: center; width: 15px; height: 15px; border: 1px solid var(--strong); border-radius: 3px; font: 700 12px/1 var(--mono); }
.filters .share { text-align: right; white-space: nowrap; }
.filters .counts { grid-column: 1 / 4; color: var(--muted); font-size: 12px; }
.filters [data-want="with"] { border-color: var(--mark); background: var(--picked); }
.filters [data-want="with"] .sign { color: var(--mark); border-color: var(--mark); }
.filters [data-want="without"] { border: 1px dashed var(--strong); background: var(--raised); }
.filters [data-want="without"] .word { text-decoration: line-through 1px; }
.filters button:disabled { color: var(--muted); cursor: default; background: transparent; }
.panes { display: grid; gap: 16px; grid-template-columns: minmax(0, 1fr); align-items: start; }
@container (min-width: 960px) {
  .filters { grid-template-columns: repeat(auto-fit, minmax(140px, 1fr)); }
}
@container (min-width: 820px) {
  .panes { grid-template-columns: minmax(320px, 36fr) minmax(0, 64fr); }
  .panes .scroll { max-height: max(320px, 100vh - 240px); }
}
.card { background: var(--surface); border: 1px solid var(--line); border-radius: 8px; min-width: 0; }
.card > .top { display: flex; flex-wrap: wrap; gap: 2px 12px; align-items: baseline; padding: 10px 14px; border-bottom: 1px solid var(--line); }
.card > .foot { padding: 8px 14px; border-top: 1px solid var(--line); color: var(--muted); font-size: 12px; }
.card > .absent { padding: 12px 14px; }

/* the classes */
.scroll { overflow: auto; max-height: 46vh; min-height: 120px; }
.classes { width: 100%; border-collapse: collapse; table-layout: fixed; }
.classes th { position: sticky; top: 0; z-index: 2; background: var(--surface); text-align: left; font: 600 11.5px var(--sans); color: var(--muted); }
.classes th { padding: 6px 10px 6px 4px; box-shadow: inset 0 -1px var(--line); }
.classes th button { font: inherit; color: inherit; border: 0; padding: 0 2px; min-height: 24px; background: none; }
.classes th button:hover { color: var(--ink); }
.classes td { padding: 6px 10px 6px 4px; vertical-align: top; border-bottom: 1px solid var(--line); }
.classes tbody tr { cursor: pointer; }
.classes tbody tr:hover td { background: var(--raised); }
.classes tr[aria-selected="true"] td { background: var(--picked); }
.classes tr[aria-selected="true"] td:first-child { box-shadow: inset 3px 0 var(--mark); }
.classes tbody tr:focus-visible { outline-offset: -2px; }
.classes th:first-child { width: 42px; }
.classes th:last-child { width: 110px; }
.classes .number { text-align: right; color: var(--muted); }
.classes tr[aria-selected="true"] .number { color: var(--ink); font-weight: 600; }
.classes .count { text-align: right; white-space: nowrap; }
.classes th:first-child, .classes th:last-child { text-align: right; }
.classes .share { display: inline-block; min-width: 7ch; color: var(--muted); }
.bar { display: block; height: 4px; margin-top: 4px; border-radius: 2px; background: var(--raised); }
.bar i { display: block; height: 100%; border-radius: 2px; background: var(--lock); min-width: 2px; }
.more { width: calc(100% - 16px); margin: 8px; }
.classes .order { font-size: 12px; }
.order { overflow-wrap: anywhere; word-spacing: -1px; }
.order .waits { color: var(--wait); text-decoration: underline dotted 1.5px; text-underline-offset: 3px; }
.order .fails { color: var(--fail); font-weight: 700; }
.order .skipped { color: var(--muted); text-decoration: line-through; }
.tags, .seen { font: 11.5px/1.4 var(--sans); color: var(--muted); margin-top: 2px; }
.tags span { white-space: nowrap; }
.tags .D, .tags .E { color: var(--fail); }
.tags .W, .tags .S { color: var(--wait); }
.tags .none { font-style: italic; }
.seen { font-family: var(--mono); overflow-wrap: anywhere; }

/* the timeline */
.lanes { overflow-x: auto; }
.timeline { --indent: calc(14px + var(--bars) * var(--pitch)); width: 100%; min-width: calc(60px + var(--sessions) * 150px); }
.timeline { border-collapse: separate; border-spacing: 0; table-layout: fixed; }
.timeline col.steps { width: calc(28px + var(--longest) * 8px); }
.timeline thead th { font: 600 13px var(--sans); text-align: left; padding: 8px 8px 6px 14px; overflow-wrap: anywhere; border-bottom: 1px solid var(--strong); }
.timeline thead th.lane { box-shadow: inset 1px 0 var(--line); }
.timeline tbody th { font: 600 12.5px/1.45 var(--mono); text-align: left; vertical-align: top; padding: 5px 6px 5px 14px; }
.timeline tbody th { overflow-wrap: anywhere; border-top: 1px solid var(--line); }
.timeline tbody tr.under th, .timeline tbody tr.under td { border-top: 1px dotted var(--line); }
.timeline tbody tr.under th { font-weight: 400; color: var(--muted); padding-left: 20px; }
.timeline td { position: relative; vertical-align: top; padding: calc(5px + var(--above, 0) * 10px) 16px 5px var(--indent); height: 30px; }
.timeline td { border-top: 1px solid var(--line); box-shadow: inset 1px 0 var(--line); overflow-wrap: anywhere; scroll-margin: 40px 0 170px; }
.timeline td:focus-visible { outline-offset: -2px; z-index: 5; }
.timeline .sql { color: var(--muted); font-size: .92em; overflow: hidden; display: -webkit-box; -webkit-box-orient: vertical; -webkit-line-clamp: 2; line-clamp: 2; }
.timeline .told, .timeline .had, .timeline .why { display: block; }
.timeline .had { font-size: .88em; color: var(--muted); }
.timeline .why { padding-left: 10px; text-indent: -10px; margin-left: 10px; font-size: .96em; }
.timeline .part { display: inline-block; text-indent: 0; }
.pill { display: inline-block; white-space: nowrap; font: 600 .92em/1.35 var(--sans); padding: 0 6px; border-radius: 9px; border: 1px solid; margin-bottom: 1px; background: var(--surface); }
.pill.wait { color: var(--wait); border-style: dashed; }
.pill.fail { color: var(--surface); background: var(--fail); border-color: var(--fail); }
.pill.on { color: var(--ink); border-color: var(--strong); }
.pill.end { color: var(--ink); border-color: var(--line); background: var(--raised); }
.pill.good { color: var(--good); }
.timeline td.stands { background: var(--wait-ground) repeating-linear-gradient(135deg, transparent 0 7px, var(--wait-stripe) 7px 9px); }
.timeline td.stands.says { background: var(--wait-ground); }
.timeline td.broken { background: repeating-linear-gradient(0deg, transparent 0 5px, var(--fail-stripe) 5px 6px); }
.timeline td.refused { background: var(--fail-ground); }
.timeline td.hot { box-shadow: inset 0 0 0 2px var(--mark); }
.timeline td.outside { background-color: light-dark(#fafafa, #191c1f); }

/* locks: a thin bar for each place, in the lane of its session */
.lock { position: absolute; top: -1px; bottom: 0; left: calc(6px + var(--slot) * var(--pitch)); width: var(--thick); }
.lock.from { top: 9px; border-top-left-radius: 3px; border-top-right-radius: 3px; }
.lock.to { bottom: 5px; border-bottom-left-radius: 3px; border-bottom-right-radius: 3px; }
.lock.X { background: var(--lock); }
.lock.S, .lock.SIX { border: solid var(--lock); border-width: 0 1px; background: var(--surface); }
.lock.SIX { border-left-width: 3px; }
.lock.S.from, .lock.SIX.from { border-top-width: 1px; }
.lock.S.to, .lock.SIX.to { border-bottom-width: 1px; }
.lock.IX, .lock.IS { width: 0; margin-left: 2px; border-left: 2px dashed var(--lock); border-radius: 0; }
.lock.IS { border-left-style: dotted; }
.lock.hot { outline: 2px solid var(--mark); outline-offset: 1px; z-index: 3; }

/* arrows: from who waits to who is waited for */
.arrow { --bar: calc(6px + var(--slot) * var(--pitch)); position: absolute; z-index: 6; height: 0; top: calc(9px + var(--row) * 10px); pointer-events: none; }
.arrow { --hue: var(--wait); border-top: 1.5px solid var(--hue); }
.arrow.right { left: var(--indent); width: calc(var(--lanes) * 100% + var(--bar) - 2px - var(--indent)); }
.arrow.left { left: calc(var(--lanes) * 100% + var(--bar) + var(--thick) + 2px); width: calc(var(--lanes) * -100% - var(--bar) - var(--thick) - 2px + var(--indent)); }
.arrow.ahead { border-top-style: dashed; }
.arrow.ring { --hue: var(--fail); border-top-width: 2px; }
.arrow::before { content: ""; position: absolute; top: -5px; border: solid transparent; border-width: 4px 7px; }
.arrow::after { content: ""; position: absolute; top: -3px; width: 5px; height: 5px; border-radius: 50%; background: var(--hue); }
.arrow.right::after { left: 0; }
.arrow.left::after { right: 0; }
.arrow.right::before { right: -7px; border-left-color: var(--hue); }
.arrow.left::before { left: -7px; border-right-color: var(--hue); }

/* what stands at a cell; what is left */
.inspector { position: sticky; bottom: 0; z-index: 8; background: var(--raised); border-top: 1px solid var(--strong); padding: 8px 14px; min-height: 62px; }
.inspector { font-size: 13px; overflow-wrap: anywhere; max-height: 40vh; overflow-y: auto; }
.inspector p + p { margin-top: 2px; }
.ends { display: flex; flex-wrap: wrap; gap: 12px 28px; padding: 10px 14px; border-top: 1px solid var(--line); overflow-wrap: anywhere; }
.ends:empty { display: none; }
.ends > p { width: 100%; font-size: 13px; }
.ends table { border-collapse: collapse; }
.ends caption { text-align: left; font: 600 12px/1.6 var(--sans); white-space: nowrap; }
.ends td { border: 1px solid var(--line); padding: 2px 9px; vertical-align: top; }
.ends td.other { background: var(--picked); box-shadow: inset 2px 0 var(--mark); }
.ends td .was { display: block; color: var(--muted); font-size: .88em; }
.ends tr.gone td { color: var(--muted); text-decoration: line-through; border-style: dashed; }
.ends td.sign { border: 0; font: 11.5px var(--sans); color: var(--muted); text-decoration: none !important; }
.key { display: flex; flex-wrap: wrap; gap: 3px 14px; align-items: center; }
.key .swatch { position: relative; display: inline-block; width: 16px; height: 14px; vertical-align: -3px; margin-right: 5px; }
.key .swatch .lock { top: 0; bottom: 0; left: 5px; }
.key .band { background: var(--wait-ground) repeating-linear-gradient(135deg, transparent 0 4px, var(--wait-stripe) 4px 6px); border: 1px dashed var(--wait); }
.key .bad { background: repeating-linear-gradient(0deg, transparent 0 3px, var(--fail-stripe) 3px 4px); border: 1px solid var(--fail-stripe); }

@media (max-width: 600px) {
  header { padding: 14px 12px 8px; }
  header h1 { flex: 1; }
  header .space { display: none; }
  header .figures { order: 1; width: 100%; }
  main { padding: 0 12px 16px; }
  .filters { grid-template-columns: 1fr 1fr; }
  .filters button { padding: 3px 7px; }
  .card > .top, .card > .foot, .ends, .inspector { padding-left: 10px; padding-right: 10px; }
  .classes th:first-child { width: 34px; }
  .classes th:last-child { width: 92px; }
  .classes .share { min-width: 6ch; }
  .timeline td, .classes td { font-size: 11.5px; }
  .timeline thead th, .timeline tbody th { padding-left: 8px; padding-right: 2px; }
  .timeline tbody th { font-size: 11.5px; }
  .timeline tbody tr.under th { padding-left: 4px; }
  .timeline .sql { display: none; }
  .timeline { --pitch: 6px; --thick: 4px; --indent: calc(9px + var(--bars) * var(--pitch)); min-width: calc(40px + var(--sessions) * 104px); }
  .timeline col.steps { width: calc(12px + var(--longest) * 7px); }
  .timeline td { padding-right: 5px; }
  .timeline thead th { padding-right: 4px; font-size: 12px; }
  .timeline .had, .timeline thead th .muted { display: none; }
  .timeline .why { margin-left: 6px; padding-left: 6px; text-indent: -6px; }
  .pill { padding: 0 5px; }
}
@page { margin: 14mm; }
@media print {
  :root { color-scheme: light !important; }
  body { background: none; font-size: 9pt; }
  .timeline td, .timeline tbody th, .classes td { font-size: 8pt; }
  .timeline { min-width: 0; }
  .timeline td { padding-top: calc(3px + var(--above, 0) * 10px); padding-bottom: 3px; }
  .noprint { display: none !important; }
  header, main { padding-left: 0; padding-right: 0; }
  .results { container-type: normal; }
  .panes { display: block; }
  .card { border: 0; margin-bottom: 14pt; }
  .card > .top, .card > .foot, .ends, #expected { padding-left: 0; padding-right: 0; }
  .scroll, .lanes { max-height: none !important; overflow: visible; }
  .classes th { position: static; }
  .classes tr, .timeline tr, .ends { break-inside: avoid; }
  .classes tr[aria-selected="true"] td { background: none; }
  .timeline .sql { display: block; }
  .timeline td, .lock, .bar i, .pill, .arrow, .ends td { print-color-adjust: exact; -webkit-print-color-adjust: exact; }
}
@media (prefers-contrast: more) {
  :root { --muted: var(--ink); --line: var(--strong); }
}
@media (forced-colors: active) {
  .lock.X, .bar i { background: CanvasText; }
  .timeline td.stands { border-left: 3px double CanvasText; }
  .ends td.other { outline: 2px solid Highlight; outline-offset: -2px; }
}
"#;

/// What stands between the style and the classes.
pub(crate) const MIDDLE: &[u8] = br#"</style>
</head>
<body>
<header><h1 id="name">isofarm classes</h1><p class="figures" id="figures"></p><span class="space"></span><button type="button" class="noprint" id="theme">Theme: system</button></header>
<main>
<div class="results" id="results">
<section class="card" id="expected" aria-label="Expectations" hidden></section>
<div class="filters noprint" id="filters" role="group" aria-label="Show classes with or without"></div>
<div class="panes">
<section class="card" aria-labelledby="classes-title">
<div class="top"><h2 id="classes-title">Classes of orders</h2><span class="space"></span><span class="muted" id="shown" role="status"></span></div>
<div class="scroll" tabindex="-1">
<table class="classes" role="grid" aria-labelledby="classes-title" aria-describedby="classes-key">
<thead><tr role="row"><th scope="col" role="columnheader">No.</th><th scope="col" role="columnheader"><button type="button" id="by-first">First order<span aria-hidden="true"></span></button></th><th scope="col" role="columnheader"><button type="button" id="by-size">Orders<span aria-hidden="true"></span></button></th></tr></thead>
<tbody id="rows"></tbody>
</table>
<button type="button" class="more noprint" id="more" hidden></button>
</div>
<p class="foot" id="classes-key"><span id="alike"></span> Marks behind a step: <b>:</b> waits, <b>!</b> fails, <b>-</b> is not sent. Anomaly: no error, yet no serial order gives this result. A bar is as long as its class is large beside the largest one.</p>
</section>
<section class="card drawn" aria-labelledby="timeline-title">
<div class="top"><h2 id="timeline-title"><span id="what"></span></h2><span class="muted" id="where"></span></div>
<p class="absent" id="absent" hidden></p>
<div class="lanes" tabindex="-1">
<table class="timeline" id="timeline" role="grid" aria-labelledby="timeline-title" aria-describedby="timeline-key">
<colgroup id="columns"></colgroup>
<thead><tr id="heads"></tr></thead>
<tbody id="moments"></tbody>
</table>
</div>
<div class="inspector noprint" id="inspector" role="note"></div>
<div class="ends" id="ends"></div>
<div class="foot key" id="timeline-key">
<span>Locks held:</span>
<span><span class="swatch"><span class="lock X"></span></span>X</span>
<span><span class="swatch"><span class="lock SIX"></span></span>SIX</span>
<span><span class="swatch"><span class="lock S"></span></span>S</span>
<span><span class="swatch"><span class="lock IX"></span></span>IX</span>
<span><span class="swatch"><span class="lock IS"></span></span>IS</span>
<span><span class="swatch band"></span>waits; the arrow leads to whom it waits for</span>
<span><span class="swatch bad"></span>failed block</span>
</div>
</section>
</div>
</div>
<noscript><p>This page wants its script. isofarm classes SPEC prints the same as text.</p></noscript>
</main>
<script type="application/json" id="classes">"#;

/// What stands before each order.
pub(crate) const BETWEEN: &[u8] = br#"</script><script type="application/json" class="order">"#;

/// What stands before the script.
pub(crate) const BACK_BEGIN: &[u8] = br#"</script><script>"#;

/// The script.
pub(crate) const SCRIPT: &[u8] = br#"'use strict';
// Shows the classes of a spec's orders, and the first order of each, moment by moment. All that a spec says goes into the page as
// text, and never as markup.

const $ = id => document.getElementById(id);
// Each letter that a class may have, with its word and what it means.
const LETTERS = {
  W: ['waits', 'a session waits'],
  D: ['deadlock', 'a session is the victim of a deadlock'],
  E: ['error', 'another error'],
  N: ['not sent', 'a step is not sent: its session waits'],
  S: ['waits for ever', 'a session waits for ever'],
  R: ['anomaly', 'anomaly: no error, yet no serial order gives this result'],
};
const KEYWORDS = ['notices', 'permutation', 'session', 'setup', 'step', 'teardown'];
const OPEN = { in: ' is in a transaction', failed: ' is in a failed block', waits: ' waits' };
// Rows of classes that are drawn, and that are drawn before others may go on; rows of a SELECT that a cell shows; rows of a table.
const MOST_ROWS = 1000, ROWS_AT_ONCE = 100, MOST_SHOWN = 6, MOST_LEFT = 50;
// Characters that show nothing or steer.
const HIDDEN = new RegExp('[\\0-\\x1f\\x7f-\\x9f\\xad\\u034f\\u061c\\u115f\\u1160\\u17b4\\u17b5\\u180b-\\u180f\\u200b-\\u200f\\u2028-\\u202e\\u2060-\\u206f'
  + '\\u3164\\ufe00-\\ufe0f\\ufeff\\uffa0\\ufff0-\\ufffb\\u{1bca0}-\\u{1bca3}\\u{1d173}-\\u{1d17a}\\u{e0000}-\\u{e0fff}]', 'gu');

/* elements and texts */

function h(tag, props, ...children) {
  const made = document.createElement(tag);
  for (const [prop, value] of Object.entries(props || {})) {
    if (prop === 'class') made.className = value || '';
    else if (prop === 'vars') Object.entries(value).forEach(([one, of]) => made.style.setProperty(`--${one}`, of));
    else if (prop.startsWith('on')) made.addEventListener(prop.slice(2), value);
    else if (value !== null && value !== undefined && value !== false) made.setAttribute(prop, value === true ? '' : value);
  }
  made.append(...children.flat(Infinity).filter(one => one !== null && one !== undefined && one !== ''));
  return made;
}
const number = new Intl.NumberFormat('en').format;
const plural = (count, word, words) => `${number(count)} ${Number(count) === 1 ? word : words || `${word}s`}`;
// A part in percent, rounded as in the text.
const share = (count, all) => {
  const tenths = all ? (2000n * BigInt(count) + BigInt(all)) / (2n * BigInt(all)) : 0n;
  return count && !tenths ? '<0.1%' : `${tenths / 10n}.${tenths % 10n}%`;
};
const spaced = (parts, by) => parts.flatMap((part, at) => at ? [by, part] : [part]);
const listed = parts => parts.flatMap((part, at) => at ? [at === parts.length - 1 ? ' and ' : ', ', part] : [part]);
const visible = text => text.replace(HIDDEN, one => `\\u{${one.codePointAt(0).toString(16)}}`);
// What a text of JSON says. A number of so many digits that it would not stand there exactly is a BigInt.
const exact = text => text.replace(/"(?:[^"\\]|\\.)*"|\d{16,}/g, one => one[0] === '"' ? one : `{"digits":"${one}"}`);
const parsed = text => JSON.parse(/[[:,]\d{16}/.test(text) ? exact(text) : text, (_key, one) => one && one.digits ? BigInt(one.digits) : one);
// A text of the spec. It is isolated, so that its direction of writing leaves the words around it in their places.
const name = text => h('bdi', null, visible(text));
const isPlain = text => /^[A-Za-z_\u0080-\u{10ffff}][\w$\u0080-\u{10ffff}]*$/u.test(text) && !KEYWORDS.includes(text);
const spelled = text => name(isPlain(text) ? text : `"${text.replaceAll('"', '""')}"`);
const code = text => h('code', null, name(text));
const span = (kind, ...parts) => h('span', { class: kind }, ...parts);
const pill = (kind, text) => span(`pill ${kind}`, text);

// What is shown: the classes, who gives the order of one, which letters are wanted, how rows stand, and which class is picked.
let data, source, want = {}, by = 'first', picked = 0, drawnRows = MOST_ROWS, drawing = 0, linked = 0;
let linkTo = at => `#class=${at + 1}`;
const who = session => name(data.sessions[session]);
const stepOf = step => name(step === null ? 'setup' : data.steps[step].name);
const isByResult = () => data.by === 'answers';
const classWord = () => isByResult() ? 'result' : 'class';
const classesWord = count => isByResult() ? plural(count, 'result') : plural(count, 'class', 'classes');

/* the classes */

// The steps of a class's order with what becomes of each, by the transcript of its session, turn by turn.
function turnsOf(one) {
  const turns = one.order.map(step => ({ step }));
  one.transcripts.forEach((lines, session) => {
    const own = turns.filter(turn => data.steps[turn.step].session === session);
    let next = 0, sent = {};
    for (const line of lines) {
      if (line.startsWith('step ')) sent = own[next++] || {};
      else if (line.startsWith('not sent ')) (own[next++] || {}).skipped = true;
      else if (line === 'waiting') sent.waits = true;
      else if (line.startsWith('error: ')) sent.fails = true;
    }
  });
  return turns;
}

function orderShown(one) {
  return spaced(turnsOf(one).map(({ step, waits, fails, skipped }) => {
    const says = [skipped && 'not sent', waits && 'waits', fails && 'fails'].filter(Boolean).join(', ');
    return h('span', { class: skipped ? 'skipped' : fails ? 'fails' : waits ? 'waits' : '' }, spelled(data.steps[step].name),
      says ? [h('span', { 'aria-hidden': true }, (skipped ? '-' : '') + (waits ? ':' : '') + (fails ? '!' : '')), span('hidden', ` (${says})`)] : '');
  }), ' ');
}

const tagsOf = one => Object.keys(LETTERS).filter(letter => one.letters.includes(letter)).map(letter => span(letter, LETTERS[letter][0]));
const nothingOf = () => !isByResult() ? 'nobody waits' : data.totals.R ? 'result of a serial order' : 'no error';
const isAsked = one => Object.entries(want).every(([letter, how]) => (how === 'with') === one.letters.includes(letter));
// What a query finds: its rows, or that there is none, or an error.
const foundText = lines => lines.filter(line => !line.startsWith('rows ')).map(line => line.replace(/^row /, '')).join(', ') || 'no row';

function placesAsked() {
  const places = data.classes.map((_one, at) => at).filter(at => isAsked(data.classes[at]));
  const size = at => data.classes[at].orders;
  return by === 'size' ? places.sort((a, b) => (size(a) < size(b)) - (size(a) > size(b)) || a - b) : places;
}

function drawFilters() {
  $('filters').replaceChildren(...Object.entries(LETTERS).filter(([letter]) => letter === 'R' || data.totals[letter]).map(([letter, [word, meaning]]) => {
    const total = data.totals[letter], [orders, classes] = total || [0, 0], state = want[letter] || 'any';
    const told = total ? `${plural(orders, 'order')}, ${classesWord(classes)}` : 'not known';
    return h('button', {
      type: 'button', 'data-want': state, 'data-letter': letter, disabled: !orders, title: total ? meaning : 'not known for permutation lines',
      'aria-label': `${word}: ${told}; ${{ any: 'with and without', with: 'only with', without: 'only without' }[state]}`,
      onclick: () => press(letter, { any: 'with', with: 'without' }[state]),
    }, h('span', { class: 'sign', 'aria-hidden': true }, { any: '', with: '+', without: '\u2212' }[state]),
    span('word', word), span('share', total ? share(orders, data.asked) : '-'), span('counts', told));
  }));
}

function press(letter, state) {
  if (state) want[letter] = state; else delete want[letter];
  drawnRows = MOST_ROWS;
  drawFilters();
  drawClasses();
  $('filters').querySelector(`[data-letter="${letter}"]`).focus();
}

function rowOf(at, most) {
  const one = data.classes[at], tags = tagsOf(one);
  const bar = h('i');
  bar.style.width = `${Math.round(Number(one.orders) / Number(most) * 1000) / 10}%`;
  return h('tr', { role: 'row', id: `class-${at}`, 'data-at': at, tabindex: at === picked ? 0 : -1, 'aria-selected': String(at === picked), onclick: () => pick(at) },
    h('td', { role: 'gridcell', class: 'number' }, String(at + 1)),
    h('td', { role: 'gridcell' }, h('div', { class: 'order' }, orderShown(one)),
      h('div', { class: 'tags' }, tags.length ? spaced(tags, '\u00a0\u00b7 ') : span('none', nothingOf())),
      one.query_rows.map(lines => h('div', { class: 'seen' }, 'query ', name(foundText(lines))))),
    h('td', { role: 'gridcell', class: 'count' }, number(one.orders), ' ', span('share', share(one.orders, data.asked)),
      h('span', { class: 'bar', 'aria-hidden': true }, bar)));
}

// The first rows stand at once; the others come behind them while the page goes on.
function drawRows(places, most, count) {
  $('rows').append(...places.slice(0, count).map(at => rowOf(at, most)));
  clearTimeout(drawing);
  if (places.length > count) drawing = setTimeout(() => drawRows(places.slice(count), most, ROWS_AT_ONCE));
}

function drawClasses() {
  const places = placesAsked(), most = data.classes.reduce((most, one) => one.orders > most ? one.orders : most, 1);
  const orders = places.reduce((sum, at) => sum + BigInt(data.classes[at].orders), 0n);
  if (places.length && !places.includes(picked)) picked = places[0];
  drawnRows = Math.max(drawnRows, places.indexOf(picked) + 1);
  const all = classesWord(data.classes.length);
  $('shown').textContent = places.length === data.classes.length ? all : `${number(places.length)} of ${all}, ${plural(orders, 'order')}`;
  $('rows').replaceChildren();
  drawRows(places.slice(0, drawnRows), most, Math.max(ROWS_AT_ONCE, places.indexOf(picked) + 1));
  if (!places.length) $('rows').append(h('tr', { role: 'row' }, h('td', { role: 'gridcell', colspan: 3, class: 'muted' }, 'No order has these letters.')));
  $('more').hidden = places.length <= drawnRows;
  $('more').textContent = `${number(Math.max(0, places.length - drawnRows))} more`;
  for (const [id, key, sort, sign] of [['by-first', 'first', 'ascending', ' \u2191'], ['by-size', 'size', 'descending', ' \u2193']]) {
    $(id).parentElement.setAttribute('aria-sort', by === key ? sort : 'none');
    $(id).lastElementChild.textContent = by === key ? sign : '';
  }
  drawOrder();
}

function pick(at, has_focus) {
  const old = $(`class-${picked}`);
  if (old) { old.setAttribute('aria-selected', 'false'); old.tabIndex = -1; }
  picked = at;
  if (!isAsked(data.classes[at])) { want = {}; drawFilters(); }
  if (!$(`class-${at}`)) drawClasses();
  const row = $(`class-${at}`);
  row.setAttribute('aria-selected', 'true');
  row.tabIndex = 0;
  if (has_focus) { row.focus({ preventScroll: true }); row.scrollIntoView({ block: 'nearest' }); }
  clearTimeout(linked);
  // A browser may keep a page of a file from it.
  linked = setTimeout(() => { try { history.replaceState(null, '', linkTo(at)); } catch (_) { /* so there is no link */ } }, 300);
  drawOrder();
}

function onClassKey(event) {
  const rows = [...$('rows').children], at = rows.indexOf(document.activeElement);
  if (at < 0 || !rows[at].dataset.at) return;
  const to = { ArrowDown: at + 1, ArrowUp: at - 1, Home: 0, End: rows.length - 1, PageDown: at + 10, PageUp: at - 10 }[event.key];
  if (event.key === 'Enter' || event.key === 'ArrowRight') { event.preventDefault(); focusCell(0, 0); return; }
  if (to === undefined) return;
  event.preventDefault();
  pick(Number(rows[Math.max(0, Math.min(rows.length - 1, to))].dataset.at), true);
}

// Each expectation, in how many orders it holds, and the class of the first order in which it fails; and levels.
function drawExpected() {
  const asked = data.levels, levels = levelText(asked, asked ? asked.other_lines : data.level_lines);
  $('expected').hidden = !data.expectations.length && !levels;
  $('expected').replaceChildren(...data.expectations.map(one => {
    const at = one.first === null ? -1 : data.classes.findIndex(of => of.first_rank === one.first);
    return h('p', null, one.first === null ? pill('good', 'holds') : pill('fail', 'failed'), ' ', code(`${one.select} = ${one.values.join(', ')}`),
      ` holds in ${number(one.holds_in)} of ${plural(data.asked, 'order')}`,
      at < 0 ? '' : [`; first fails at rank ${one.first}, in `, h('button', { type: 'button', onclick: () => pick(at, true) }, `${classWord()} ${at + 1}`)]);
  }), levels ? h('p', { class: 'muted' }, levels) : '');
}

// Under which level all stands, or that levels have no effect, with the lines of the file.
function levelText(asked, lines) {
  const told = lines[0] ? ` (line${lines[1] ? 's' : ''} ${lines.join(', ')})` : '', names = ['READ COMMITTED', 'SERIALIZABLE'];
  if (!asked) return told && `Isolation levels have no effect${told}.`;
  if (asked.default === 'serializable') names.reverse();
  return `Isolation level: ${names[0]}${told && `; ${names[1]}${told}`}.`;
}

/* the moments of an order */

const wants = it => [`wants ${it.wants} on `, name(it.on), it.has ? (it.asks === it.wants ? `, has ${it.has}` : `: has ${it.has} and asks ${it.asks}`) : ''];
const reason = ([other, why, mode]) => [who(other), why === 'holds' ? ` holds ${mode}` : ` is ahead, for ${mode}`];
// What a session read that a commit made stale.
const staleOf = (moment, session) => (moment.stale || []).filter(([one]) => one === session)
  .map(([, step, was, now]) => [stepOf(step), ' read ', name(foundText(was)), '; ', who(moment.session), ' committed ', name(foundText(now))]);
const isWait = moment => moment.told.at(-1) === 'waiting';
const failed = moment => moment.told.some(line => line.startsWith('error: '));

// How things stand at each moment: the locks before it, in it and behind it, who waits, and for whom.
function statesOf(order) {
  const held = order.begun.map(one => new Map(one.locks)), status = order.begun.map(one => one.status);
  const waits = held.map(() => null), edges = held.map(() => []), slots = held.map(() => new Map()), since = held.map(() => new Map());
  const copies = maps => maps.map(map => new Map(map));
  let most = 1;
  // A lock keeps its place beside the lane while it is shown; the leftmost one that is free among those shown is taken.
  const put = (session, on, step, shown) => {
    since[session].set(on, step);
    if (shown.has(on)) return;
    const used = [...shown.keys()].map(one => slots[session].get(one));
    let slot = 0;
    while (used.includes(slot)) slot++;
    slots[session].set(on, slot);
    most = Math.max(most, slot + 1);
  };
  order.begun.forEach((one, session) => one.locks.forEach(([on], at) => put(session, on, null, new Map(one.locks.slice(0, at)))));
  const states = order.moments.map((moment, at) => {
    const before = copies(held), during = copies(held), mine = held[moment.session], got = [];
    if (moment.kind === 'resumed') waits[moment.session] = null;
    for (const lock of moment.locks) {
      if (lock === null) { mine.clear(); continue; }
      const [on, mode] = lock;
      if (mine.get(on) !== mode) got.push([on, mode]);
      if (!mine.has(on)) put(moment.session, on, moment.step, during[moment.session]);
      mine.set(on, mode);
      during[moment.session].set(on, mode);
    }
    status[moment.session] = moment.status;
    if (isWait(moment)) {
      waits[moment.session] = { at, step: moment.step, it: moment.want };
      edges[moment.session] = moment.want.for;
    }
    for (const [session, of] of moment.still) edges[session] = of;
    return { before, during, after: copies(held), got, status: [...status], waits: [...waits], edges: [...edges], since: copies(since), slots: copies(slots) };
  });
  return [states, most];
}

// An arrow lies above the text of the cell of who waits, and ends at the bar, or at the lane, of who is waited for. All lanes
// are equally wide, so its place needs no measuring, and is right in print too.
function arrow(from, [to, why], on, kind, row, state) {
  const slot = why === 'holds' && state.slots[to].has(on) ? state.slots[to].get(on) : 0;
  const props = { class: `arrow ${to > from ? 'right' : 'left'} ${kind}${why}`, 'data-from': from, 'data-to': to, 'data-on': on, 'aria-hidden': true };
  return h('span', { ...props, vars: { lanes: to - from, slot, row } });
}
const arrowsOf = (edges, from, on, row, state) => edges.map((edge, at) => arrow(from, edge, on, '', row + at, state));

let order = null, states = [];

function drawOrder() {
  const one = data.classes[picked], at = picked;
  order = null;
  for (const id of ['heads', 'moments', 'ends', 'columns']) $(id).replaceChildren();
  $('absent').hidden = true;
  $('what').textContent = one ? `${isByResult() ? 'Result' : 'Class'} ${number(at + 1)} of ${number(data.classes.length)}` : 'No class';
  $('where').textContent = one ? `rank ${one.first_rank}, ${one.orders === 1 ? 'its only order' : `the first of ${plural(one.orders, 'order')}`}` : '';
  inspect(null);
  if (one) source(at, found => { if (at === picked && one === data.classes[at]) drawFound(one, found); });
}

// The words of a command, for a shell.
const commandOf = words => words.map(word => /^[\w./+-]+$/.test(word) ? word : `'${word.replaceAll("'", "'\\''")}'`).join(' ');

function drawFound(one, found) {
  // A short order has no steps behind its end; those that are not sent are of the rank.
  order = found && one.order.length < found.order.length ? { ...found, moments: found.moments.filter(moment => moment.kind !== 'notsent') } : found;
  if (!order) {
    $('absent').replaceChildren('Its moments are not in this page. Here they are: ', code(commandOf(['isofarm', 'show', data.name, String(one.first_rank)])));
    $('absent').hidden = false;
    $('ends').replaceChildren(...one.final_rows.map(table => leftShown(table, table.rows)), ...openShown(one.open || []), ...foundShown(one));
    return;
  }
  let most;
  [states, most] = statesOf(order);
  $('heads').replaceChildren(h('th', { scope: 'col' }, span('hidden', 'Step')),
    ...data.sessions.map((_name, session) => h('th', { scope: 'col', class: 'lane' }, span('muted', 'session '), who(session))));
  $('columns').replaceChildren(h('col', { class: 'steps' }), ...data.sessions.map(() => h('col')));
  const longest = Math.min(13, Math.max(4, ...data.steps.map(step => visible(step.name).length)));
  for (const [one, of] of [['sessions', data.sessions.length], ['bars', most], ['longest', longest]]) $('timeline').style.setProperty(`--${one}`, of);
  $('moments').replaceChildren(...order.moments.map(drawMoment));
  const tables = order.left.map((table, place) => leftShown(table, order.first[place].rows));
  $('ends').replaceChildren(...endsShown(), ...tables, ...openShown(order.open), ...foundShown(one));
  const cell = $('moments').querySelector('td');
  if (cell) cell.tabIndex = 0;
}

function drawMoment(moment, row) {
  const state = states[row], is_under = moment.kind === 'resumed', waiting = isWait(moment) ? moment.want.for.length : 0;
  const step = stepOf(moment.step);
  const head = h('th', { scope: 'row' }, is_under ? [h('span', { 'aria-hidden': true }, '\u21b3 '), step, span('hidden', ' goes on')] : step);
  // Arrows have room of their own above the text: first those of the ring, then those of who waits, then those of others.
  const ring = moment.ring ? moment.ring.length : 0, rows = {};
  let above = ring + waiting;
  for (const [session, edges] of moment.still) { rows[session] = above; above += edges.length; }
  return h('tr', { class: is_under ? 'under' : '', vars: above ? { above } : {} }, head, data.sessions.map((_name, session) => {
    const is_mine = session === moment.session, waits = state.waits[session], now = moment.still.find(([one]) => one === session);
    const stale = staleOf(moment, session).map(one => why(one));
    const is_idle = state.status[session] === 'out' && !waits && !is_mine && !state.after[session].size;
    const classes = [waits && 'stands', waits && (is_mine || now || stale[0]) && 'says', is_idle && 'outside',
      is_mine && failed(moment) ? 'refused' : state.status[session] === 'failed' && !waits && 'broken'];
    const hop = moment.ring ? moment.ring.findIndex(([one]) => one === session) : -1;
    return h('td', { class: classes.filter(Boolean).join(' '), tabindex: -1, 'aria-describedby': 'inspector', 'data-row': row, 'data-session': session },
      [...state.during[session]].map(([on, mode]) => h('span', {
        class: `lock ${mode}${state.before[session].has(on) ? '' : ' from'}${state.after[session].has(on) ? '' : ' to'}`,
        'data-on': on, 'data-holder': session, 'aria-hidden': true, vars: { slot: state.slots[session].get(on) },
      })),
      is_mine ? cellOf(moment, state, ring) : '',
      now ? [now[1].map(edge => why('now ', part(reason(edge)))), arrowsOf(now[1], session, waits.it.on, rows[session], state)] : '', stale,
      hop >= 0 ? ringArrow(moment.ring[hop], hop, state) : '');
  }));
}

const ringArrow = ([session, , on, edge], hop, state) => arrow(session, edge, on, 'ring ', hop, state);
const wayOf = moment => spaced([...moment.ring.map(([one]) => one), moment.session].map(who), ' \u2192 ');
// A reason stays on a line of its own where it does not fit behind what stands before it.
const part = parts => span('part', parts);
const why = (...parts) => span('why', ...parts);
const told = (...parts) => span('told', ...parts);

function cellOf(moment, state, row) {
  const parts = [], sql = moment.step === null ? '' : data.steps[moment.step].sql;
  if (moment.kind === 'sent' && sql) parts.push(span('sql', name(sql)));
  const shown = moment.told.filter(line => line !== 'done'), rows = shown.filter(line => line.startsWith('row ')).length;
  const most = rows > MOST_SHOWN + 1 ? MOST_SHOWN : rows;
  const reasons = it => it.for.map(edge => why(part(reason(edge))));
  let shownRows = 0;
  for (const line of shown) {
    if (line.startsWith('row ')) {
      shownRows++;
      if (shownRows <= most) parts.push(told(name(line)));
      else if (shownRows === rows) parts.push(span('told muted', `and ${rows - most} rows more`));
    } else if (line === 'waiting') {
      parts.push(told(pill('wait', 'waits'), ' ', wants(moment.want)), reasons(moment.want), arrowsOf(moment.want.for, moment.session, moment.want.on, row, state));
    } else if (line.startsWith('not sent ')) parts.push(told(pill('wait', 'not sent'), ' still ', wants(moment.want)), reasons(moment.want));
    else if (line.startsWith('error: ')) {
      const ring = line === 'error: deadlock' && moment.ring, lacks = line === 'error: lock not available' && moment.lacks;
      parts.push(told(pill('fail', line.slice(7)), ring ? [' ring ', wayOf(moment)] : lacks ? [' ', wants(lacks)] : ''), lacks ? reasons(lacks) : '');
      if (ring) parts.push(ring.map(([one, mode, on, edge]) => why(who(one), ` wants ${mode} on `, name(on), ': ', part(reason(edge)))));
    } else if (line === 'resumed') parts.push(told(pill('on', line)));
    else parts.push(told(line === 'committed' || line === 'rolled back' ? pill('end', line) : name(line)));
  }
  if (!shown.length) parts.push(span('told muted', 'done'));
  if (state.got.length) parts.push(span('had', spaced(state.got.map(([on, mode]) => [`+${mode} `, name(on)]), '  ')));
  return parts;
}

/* final rows */

const endsShown = () => data.sessions.flatMap((_name, session) => {
  const last = states.at(-1), waits = last && last.waits[session];
  return waits ? [h('p', null, pill('wait', 'waits for ever'), ' ', who(session), ': it ', wants(waits.it), '; ', spaced(last.edges[session].map(reason), ', '), '.')] : [];
});
const openShown = open => open.filter(([, how]) => how !== 'waits' || !order).map(([session, how]) => h('p', { class: 'open' }, who(session), `${OPEN[how]}.`));
const foundShown = one => one.query_rows.map((lines, at) => h('p', null, 'query ', code(data.queries[at]), ': ', code(foundText(lines))));

const valuesOf = row => row.match(/'(?:[^']|'')*'|[^|]+/g) || [];
const keyText = value => value.slice(1, -1).replaceAll("''", "'");
const isBelow = (a, b) => a[0] === "'" ? keyText(a) < keyText(b) : BigInt(a) < BigInt(b);
const rises = values => values.every((value, at) => !at || isBelow(values[at - 1], value));

// By what rows are told apart: the column that rises, before and now, as a key's does; of several the one that has the most keys that
// are locked in this order, and of these the first. Without one whole rows are compared.
function keysOf(table, before, now) {
  const of = (rows, column) => rows.map(row => row[column]), all = [...before, ...now], locks = [...order.begun, ...order.moments].flatMap(one => one.locks);
  const locked = locks.filter(lock => lock && lock[0].startsWith(`${table}[`)).map(([on]) => on.slice(table.length + 1, -1));
  const named = column => new Set(locked.filter(key => of(all, column).includes(key))).size;
  const columns = [...(all[0] || []).keys()].filter(column => rises(of(before, column)) && rises(of(now, column)));
  const key = columns.reduce((best, column) => best < 0 || named(column) > named(best) ? column : best, -1);
  const whole = rows => rows.map((row, at) => JSON.stringify([row, rows.slice(0, at).filter(one => one.join('|') === row.join('|')).length]));
  return key < 0 ? [whole(before), whole(now)] : [of(before, key), of(now, key)];
}

function leftShown(table, first) {
  const before = first.map(valuesOf), now = table.rows.map(valuesOf), [old, keys] = order ? keysOf(table.table, before, now) : [now, now];
  const rows = now.map((row, at) => {
    const was = before[old.indexOf(keys[at])];
    return h('tr', { class: was ? '' : 'new' }, row.map((value, column) => {
      const is_other = !was || was[column] !== value;
      return h('td', { class: is_other ? 'other' : '' }, name(value), was && is_other ? span('was', 'was ', name(was[column])) : '');
    }), was ? '' : h('td', { class: 'sign' }, 'new'));
  });
  const gone = before.filter((_row, at) => !keys.includes(old[at]));
  rows.push(...gone.map(row => h('tr', { class: 'gone' }, row.map(value => h('td', null, name(value))), h('td', { class: 'sign' }, 'gone'))));
  const shown = rows.slice(0, MOST_LEFT), more = rows.length - shown.length;
  return h('table', null, h('caption', null, span('muted', 'final rows of '), name(table.table), span('muted', now.length ? '' : ': no row')),
    h('tbody', null, shown, more > 0 ? h('tr', null, h('td', { class: 'sign', colspan: 9 }, `and ${plural(more, 'row')} more`)) : ''));
}

/* what stands at a cell, in sentences */

const locksText = map => listed([...map].map(([on, mode]) => [`${mode} on `, name(on)]));

function reasonLong([other, why, mode], on, state) {
  if (why === 'ahead') return [who(other), ` waits there too, for ${mode}, and is ahead`];
  const since = state.since[other].get(on);
  return [who(other), ` holds ${mode} there`, since === undefined ? '' : since === null ? ' since its setup' : [' since ', stepOf(since)]];
}

function endOfWait(row, session) {
  const at = order.moments.findIndex((moment, place) => place > row && moment.session === session && moment.kind === 'resumed');
  if (at < 0) return 'It waits for ever.';
  return ['It goes on after ', stepOf(order.moments.slice(0, at).findLast(moment => moment.kind !== 'resumed').step), '.'];
}

function sentences(row, session) {
  const moment = order.moments[row], state = states[row], before = states[row - 1] || state, waits = state.waits[session];
  const says = [], is_mine = session === moment.session, step = stepOf(moment.step);
  const reasons = (edges, on, state) => listed(edges.map(edge => reasonLong(edge, on, state)));
  if (is_mine && moment.kind === 'notsent') says.push([step, ' is not sent, for good: ', who(session), ' still waits.']);
  else if (is_mine) says.push([step, moment.kind === 'resumed' ? ' goes on: ' : ': ', name((moment.step !== null && data.steps[moment.step].sql) || 'no statement')]);
  if (is_mine && moment.ring) {
    says.push(['To wait would close the ring ', wayOf(moment), ', so ', who(session), ' is refused and all that its transaction did is undone. ',
      moment.ring.map(([one, mode, on, edge]) => [who(one), ` wants ${mode} on `, name(on), ', and ', reasonLong(edge, on, before), '. '])]);
  }
  if (is_mine && moment.lacks) {
    says.push(['Its request does not wait, so it is refused: it ', wants(moment.lacks), '. ', reasons(moment.lacks.for, moment.lacks.on, before), '.']);
  }
  if (waits) {
    says.push([who(session), ' waits with ', stepOf(waits.step), ': it ', wants(waits.it), '. ', reasons(state.edges[session], waits.it.on, state), '. ',
      endOfWait(waits.at, session)]);
  }
  says.push(...staleOf(moment, session).map(one => [one, '.']));
  const open = { ...OPEN, failed: ' is in a failed block, which takes COMMIT and ROLLBACK alone,', out: ' has no transaction open' }[state.status[session]];
  const held = state.after[session].size ? locksText(state.after[session]) : 'no lock';
  says.push([is_mine && moment.locks.includes(null) ? 'Its locks were let go. ' : '', 'Then ', who(session), open, ' and holds ', held, '.']);
  return says;
}

function inspect(at) {
  for (const hot of document.querySelectorAll('.hot')) hot.classList.remove('hot');
  if (!at || !order) {
    $('inspector').replaceChildren(h('p', { class: 'muted' }, 'Point at a cell, or go from the classes to the timeline with Enter, through it with the arrow keys, '
      + 'and back with Escape: here stands why a session waits, and which locks it holds.'));
    return;
  }
  const [row, session] = at, state = states[row], waits = state.waits[session], moment = order.moments[row];
  $('inspector').replaceChildren(...sentences(row, session).map(parts => h('p', null, parts)));
  const mark = ([other, why], on) => {
    const bars = [...$('moments').children[row].querySelectorAll('.lock')];
    for (const bar of bars) if (why === 'holds' && Number(bar.dataset.holder) === other && bar.dataset.on === on) bar.classList.add('hot');
  };
  if (waits) for (const edge of state.edges[session]) mark(edge, waits.it.on);
  if (session !== moment.session) return;
  for (const [, , on, edge] of moment.ring || []) mark(edge, on);
  for (const edge of moment.lacks ? moment.lacks.for : []) mark(edge, moment.lacks.on);
}

function focusCell(row, session) {
  const rows = $('moments').children;
  if (!rows.length) return;
  const old = $('moments').querySelector('td[tabindex="0"]');
  if (old) old.tabIndex = -1;
  const cell = rows[Math.max(0, Math.min(rows.length - 1, row))].children[1 + Math.max(0, Math.min(data.sessions.length - 1, session))];
  cell.tabIndex = 0;
  cell.focus({ preventScroll: true });
  cell.scrollIntoView({ block: 'nearest', inline: 'nearest' });
}

function cellAt(event) {
  const at = event.target.closest('td');
  return at && at.dataset.row ? [Number(at.dataset.row), Number(at.dataset.session)] : null;
}

function onCellKey(event) {
  const at = cellAt(event);
  if (!at) return;
  const [row, session] = at;
  const to = {
    ArrowDown: [row + 1, session], ArrowUp: [row - 1, session], ArrowRight: [row, session + 1], ArrowLeft: [row, session - 1],
    Home: [0, session], End: [order.moments.length - 1, session], Escape: [],
  }[event.key];
  if (!to) return;
  event.preventDefault();
  if (to.length) focusCell(...to); else pick(picked, true);
}

/* the page */

const linkedClass = () => {
  const at = Number((location.hash.match(/class=(\d+)/) || [])[1]) - 1;
  return at >= 0 && at < data.classes.length ? at : -1;
};

function drawFigures() {
  const counted = text => { const [count, ...words] = text.split(' '); return [h('b', null, count), ` ${words.join(' ')}`]; };
  const is_part = data.asked !== data.orders;
  $('figures').replaceChildren(...[is_part ? [h('b', null, number(data.asked)), ' of '] : '', counted(plural(data.orders, 'order')), ' of ', counted(plural(data.steps.length, 'step')), ' in ',
    counted(plural(data.sessions.length, 'session')), is_part ? ' asked for, ' : ', ', counted(classesWord(data.classes.length))].flat(2));
  $('alike').textContent = `The orders of a ${isByResult() ? 'result have the same rows, counts and errors' : 'class return the same to each session'}, and the same final rows.`;
  $('classes-title').textContent = isByResult() ? 'Results of orders' : 'Classes of orders';
}

// Shows classes. `from(at, tell)` tells the order of the class at a place, or null where there is none; `at` is the class to pick.
function show(given, from, at) {
  data = given;
  source = from;
  picked = Math.max(0, at);
  for (const letter of Object.keys(want)) if (!data.totals[letter] || !data.totals[letter][0]) delete want[letter];
  drawFigures();
  drawExpected();
  drawFilters();
  drawClasses();
  if (at > 0) $(`class-${picked}`).scrollIntoView({ block: 'nearest' });
}

$('rows').addEventListener('keydown', onClassKey);
$('moments').addEventListener('keydown', onCellKey);
$('moments').addEventListener('focusin', event => inspect(cellAt(event)));
$('moments').addEventListener('pointerover', event => { if (cellAt(event)) inspect(cellAt(event)); });
$('by-first').addEventListener('click', () => { by = 'first'; drawClasses(); });
$('by-size').addEventListener('click', () => { by = 'size'; drawClasses(); });
$('more').addEventListener('click', () => { drawnRows += MOST_ROWS; drawClasses(); });
$('theme').addEventListener('click', () => {
  const next = { '': 'dark', dark: 'light', light: '' }[document.documentElement.style.colorScheme];
  document.documentElement.style.colorScheme = next;
  $('theme').textContent = `Theme: ${next || 'system'}`;
});

if ($('classes')) {
  const given = parsed($('classes').textContent), orders = document.querySelectorAll('script.order');
  data = given;
  $('name').replaceChildren(name(given.name));
  document.title = `${visible(given.name)}: ${plural(given.orders, 'order')}, ${classesWord(given.classes.length)}`;
  show(given, (at, tell) => tell(at < orders.length ? parsed(orders[at].textContent) : null), linkedClass());
  addEventListener('hashchange', () => { if (linkedClass() >= 0 && linkedClass() !== picked) pick(linkedClass(), true); });
}
"#;

/// What stands behind the script.
pub(crate) const BACK_END: &[u8] = br#"</script></body></html>
"#;
